// An UPDATE.
#![tactic(auto)]

ghost use Rattle.std.specs.Prelude.{◌≡◌};
ghost use Rattle.bytes_format.proofs.Formats.{list_of};
ghost use Rattle.bytes_bundle.specs.Bundle.{is_there};
ghost use Rattle.image_parts.specs.Layout.{object_name, table_with_joins, condition, assignment_target, assignment, updating};
ghost use Rattle.image_expression.specs.Expression.{expression};
ghost use Rattle.rules.specs.Statements.{ObjectName, Target, target, Assignment, Update};
ghost use Rattle.bytes_bundle.specs.Held.{Is, Holds};
ghost use Rattle.image_update.specs.Held.{target_no};

use image_parts::condition::is_condition;
use image_parts::heads::{are_marks, behind, mark_in};
use image_parts::names::is_object_name;
use image_parts::table::is_table;

// Code 0: a tuple, which is not held. Code 1: an object name.
#[tactic(auto, using(crate::specs::Shapes::is_target_lem, bytes_bundle::specs::Heads::rest_lem))]
pub fn is_target(s: &[u8]) -> bool
    ensures { result ≡ is_there (assignment_target.read s.now) }
{
    match s {
        [0] => true,
        [1, name @ ..] => is_object_name(name),
        _ => false,
    }
}

// A record of the target and the value.
#[tactic(auto, using(crate::specs::Shapes::is_assignment_lem, bytes_bundle::specs::Laws::is_record_lem))]
pub fn is_assignment(s: &[u8]) -> bool
    ensures { result ≡ is_there (assignment.read s.now) }
{
    bytes_bundle::is_record(s, 2, 2)
        && is_target(bytes_bundle::part(s, 2, 0))
        && image_expression::is_expression(bytes_bundle::part(s, 2, 1))
}

pub fn are_assignments(s: &[u8]) -> bool
    ensures { result ≡ is_there ((list_of 2 assignment).read s.now) }
{
    bytes_bundle::is_bundle(s, 2) && bytes_bundle::iter(s, 2).all(is_assignment)
}

// A record of three marks, the table, the assignments, the condition.
#[tactic(auto, using(crate::specs::Shapes::is_update_lem, bytes_bundle::specs::Laws::is_record_lem))]
pub fn is_update(s: &[u8]) -> bool
    ensures { result ≡ is_there (updating.read s.now) }
{
    bytes_bundle::is_record(s, 2, 4)
        && are_marks(bytes_bundle::part(s, 2, 0), 3)
        && is_table(bytes_bundle::part(s, 2, 1))
        && are_assignments(bytes_bundle::part(s, 2, 2))
        && is_condition(bytes_bundle::part(s, 2, 3))
}

// ---- what an UPDATE holds

pub fn has_from(u: &[u8]) -> bool
    requires { Is updating u.now }
    ensures { (v : Update) → Holds updating u.now v → result ≡ v.from }
{
    mark_in(u, 0)
}

pub fn has_returning(u: &[u8]) -> bool
    requires { Is updating u.now }
    ensures { (v : Update) → Holds updating u.now v → result ≡ v.returning }
{
    mark_in(u, 1)
}

pub fn has_conflict(u: &[u8]) -> bool
    requires { Is updating u.now }
    ensures { (v : Update) → Holds updating u.now v → result ≡ v.conflict }
{
    mark_in(u, 2)
}

pub fn table_of(u: &[u8]) -> &[u8]
    requires { Is updating u.now }
    ensures { (v : Update) → Holds updating u.now v → Holds table_with_joins result.now v.table }
{
    bytes_bundle::part(u, 2, 1)
}

pub fn assignments(u: &[u8]) -> &[u8]
    requires { Is updating u.now }
    ensures { (v : Update) → Holds updating u.now v → Holds (list_of 2 assignment) result.now v.assignments }
{
    bytes_bundle::part(u, 2, 2)
}

pub fn condition_of(u: &[u8]) -> &[u8]
    requires { Is updating u.now }
    ensures { (v : Update) → Holds updating u.now v → Holds condition result.now v.condition }
{
    bytes_bundle::part(u, 2, 3)
}

// ---- an assignment

pub fn target_of(a: &[u8]) -> &[u8]
    requires { Is assignment a.now }
    ensures { (v : Assignment) → Holds assignment a.now v → Holds assignment_target result.now v.target }
{
    bytes_bundle::part(a, 2, 0)
}

pub fn value_of(a: &[u8]) -> &[u8]
    requires { Is assignment a.now }
    ensures { (v : Assignment) → Holds assignment a.now v → Holds expression result.now v.value }
{
    bytes_bundle::part(a, 2, 1)
}

// 0: a tuple. 1: an object name.
pub fn target_code(t: &[u8]) -> u8
    requires { Is assignment_target t.now }
    ensures { (v : Target) → Holds assignment_target t.now v → result ≡ target_no v }
{
    t[0]
}

pub fn target_name(t: &[u8]) -> &[u8]
    requires { Is assignment_target t.now }
    ensures { (n : ObjectName) → Holds assignment_target t.now (target n) → Holds object_name result.now n }
{
    behind(t)
}
