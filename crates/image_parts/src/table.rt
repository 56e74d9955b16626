// The one table that a SELECT, an UPDATE or a DELETE names.
ghost use Rattle.std.specs.Prelude.{◌≡◌, Bool};
ghost use Rattle.bytes_bundle.specs.Bundle.{is_there};
ghost use Rattle.image_parts.specs.Layout.{object_name, relation, table_with_joins};
ghost use Rattle.image_parts.specs.Shapes.{direct_form};
ghost use Rattle.rules.specs.Statements.{ObjectName, TableWithJoins, Relation, direct};
ghost use Rattle.bytes_bundle.specs.Held.{Is, Holds, Shows};
ghost use Rattle.image_parts.specs.NamesHeld.{relation_no, is_direct};

use crate::heads::behind;
use crate::names::is_object_name;

// What code 1 of a relation has behind it: a mark and an object name.
#[tactic(auto, using(crate::specs::Shapes::is_direct_lem, bytes_bundle::specs::Heads::rest_lem))]
fn is_direct(s: &[u8]) -> bool
    ensures { result ≡ is_there (direct_form.read s.now) }
{
    matches!(s, [mark, name @ ..] if *mark < 2 && is_object_name(name))
}

// Code 0: no table of its own, nothing is held. Code 1: a mark and an object name.
#[tactic(auto, using(crate::specs::Shapes::is_relation_lem, bytes_bundle::specs::Heads::rest_lem))]
pub fn is_relation(s: &[u8]) -> bool
    ensures { result ≡ is_there (relation.read s.now) }
{
    match s {
        [0] => true,
        [1, direct @ ..] => is_direct(direct),
        _ => false,
    }
}

// A mark and a relation.
#[tactic(auto, using(crate::specs::Shapes::is_table_lem, bytes_bundle::specs::Heads::rest_lem))]
pub fn is_table(s: &[u8]) -> bool
    ensures { result ≡ is_there (table_with_joins.read s.now) }
{
    matches!(s, [mark, relation @ ..] if *mark < 2 && is_relation(relation))
}

// ---- what a table holds

pub fn has_joins(t: &[u8]) -> bool
    requires { Is table_with_joins t.now }
    ensures { (v : TableWithJoins) → Holds table_with_joins t.now v → result ≡ v.joins }
{
    t[0] == 1
}

pub fn relation_of(t: &[u8]) -> &[u8]
    requires { Is table_with_joins t.now }
    ensures { (v : TableWithJoins) → Holds table_with_joins t.now v → Holds relation result.now v.relation }
{
    behind(t)
}

// 0: no table of its own. 1: a table.
pub fn relation_code(s: &[u8]) -> u8
    requires { Is relation s.now }
    ensures { (v : Relation) → Holds relation s.now v → result ≡ relation_no v }
{
    s[0]
}

pub fn relation_is_marked(s: &[u8]) -> bool
    requires { Shows relation is_direct s.now }
    ensures { (m : Bool) (n : ObjectName) → Holds relation s.now (direct m n) → result ≡ m }
{
    s[1] == 1
}

pub fn relation_name(s: &[u8]) -> &[u8]
    requires { Shows relation is_direct s.now }
    ensures { (m : Bool) (n : ObjectName) → Holds relation s.now (direct m n) → Holds object_name result.now n }
{
    behind(behind(s))
}
