// A DELETE.
#![tactic(auto)]

ghost use Rattle.std.specs.Prelude.{◌≡◌};
ghost use Rattle.bytes_bundle.specs.Bundle.{is_there};
ghost use Rattle.image_parts.specs.Layout.{table_with_joins, condition, delete_from, deletion};
ghost use Rattle.rules.specs.Statements.{TableWithJoins, one, DeleteFrom, from, Delete};
ghost use Rattle.bytes_bundle.specs.Held.{Is, Holds};
ghost use Rattle.image_delete.specs.Held.{delete_from_no};

use image_parts::condition::is_condition;
use image_parts::heads::{are_marks, behind, mark_in};
use image_parts::table::is_table;

// Code 0: without the keyword FROM. Code 1: another number of tables than one. Neither holds anything. Code 2: the table.
#[tactic(auto, using(crate::specs::Shapes::is_delete_from_lem, bytes_bundle::specs::Heads::rest_lem))]
pub fn is_delete_from(s: &[u8]) -> bool
    ensures { result ≡ is_there (delete_from.read s.now) }
{
    match s {
        [0 | 1] => true,
        [2, table @ ..] => is_table(table),
        _ => false,
    }
}

// A record of five marks, the FROM, the condition.
#[tactic(auto, using(crate::specs::Shapes::is_delete_lem, bytes_bundle::specs::Laws::is_record_lem))]
pub fn is_delete(s: &[u8]) -> bool
    ensures { result ≡ is_there (deletion.read s.now) }
{
    bytes_bundle::is_record(s, 2, 3)
        && are_marks(bytes_bundle::part(s, 2, 0), 5)
        && is_delete_from(bytes_bundle::part(s, 2, 1))
        && is_condition(bytes_bundle::part(s, 2, 2))
}

// ---- what a DELETE holds

pub fn has_tables(d: &[u8]) -> bool
    requires { Is deletion d.now }
    ensures { (v : Delete) → Holds deletion d.now v → result ≡ v.tables }
{
    mark_in(d, 0)
}

pub fn has_using(d: &[u8]) -> bool
    requires { Is deletion d.now }
    ensures { (v : Delete) → Holds deletion d.now v → result ≡ v.using_clause }
{
    mark_in(d, 1)
}

pub fn has_returning(d: &[u8]) -> bool
    requires { Is deletion d.now }
    ensures { (v : Delete) → Holds deletion d.now v → result ≡ v.returning }
{
    mark_in(d, 2)
}

pub fn has_order_by(d: &[u8]) -> bool
    requires { Is deletion d.now }
    ensures { (v : Delete) → Holds deletion d.now v → result ≡ v.order_by }
{
    mark_in(d, 3)
}

pub fn has_limit(d: &[u8]) -> bool
    requires { Is deletion d.now }
    ensures { (v : Delete) → Holds deletion d.now v → result ≡ v.limit }
{
    mark_in(d, 4)
}

pub fn from_of(d: &[u8]) -> &[u8]
    requires { Is deletion d.now }
    ensures { (v : Delete) → Holds deletion d.now v → Holds delete_from result.now v.from }
{
    bytes_bundle::part(d, 2, 1)
}

pub fn condition_of(d: &[u8]) -> &[u8]
    requires { Is deletion d.now }
    ensures { (v : Delete) → Holds deletion d.now v → Holds condition result.now v.condition }
{
    bytes_bundle::part(d, 2, 2)
}

// 0: without the keyword FROM. 1: another number of tables than one. 2: the table.
pub fn from_code(f: &[u8]) -> u8
    requires { Is delete_from f.now }
    ensures { (v : DeleteFrom) → Holds delete_from f.now v → result ≡ delete_from_no v }
{
    f[0]
}

pub fn table_of(f: &[u8]) -> &[u8]
    requires { Is delete_from f.now }
    ensures { (t : TableWithJoins) → Holds delete_from f.now (from (one t)) → Holds table_with_joins result.now t }
{
    behind(f)
}
