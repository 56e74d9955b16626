// A query: a mark, then nothing more than that it is no plain SELECT, or the SELECT.
#![tactic(auto)]

ghost use Rattle.std.specs.Prelude.{◌≡◌};
ghost use Rattle.bytes_format.proofs.Formats.{list_of};
ghost use Rattle.bytes_bundle.specs.Bundle.{is_there};
ghost use Rattle.image_parts.specs.Layout.{name, table_with_joins, item, select_from, condition, select, query_body, selection};
ghost use Rattle.rules.specs.Statements.{Name, TableWithJoins, Item, column, From, one, Select, QueryBody, plain_select, Query};
ghost use Rattle.bytes_bundle.specs.Held.{Is, Holds};
ghost use Rattle.image_select.specs.Held.{item_no, from_no, body_no};

use image_parts::condition::is_condition;
use image_parts::heads::{are_marks, behind, mark_in};
use image_parts::names::is_name;
use image_parts::table::is_table;

// Code 0: any other item. Code 1: `*`. Code 2: a column's name.
#[tactic(auto, using(crate::specs::Shapes::is_item_lem, bytes_bundle::specs::Heads::rest_lem))]
pub fn is_item(s: &[u8]) -> bool
    ensures { result ≡ is_there (item.read s.now) }
{
    match s {
        [0 | 1] => true,
        [2, name @ ..] => is_name(name),
        _ => false,
    }
}

pub fn are_items(s: &[u8]) -> bool
    ensures { result ≡ is_there ((list_of 2 item).read s.now) }
{
    bytes_bundle::is_bundle(s, 2) && bytes_bundle::iter(s, 2).all(is_item)
}

// Code 0: another number of tables than one, which are not held. Code 1: the table.
#[tactic(auto, using(crate::specs::Shapes::is_select_from_lem, bytes_bundle::specs::Heads::rest_lem))]
pub fn is_select_from(s: &[u8]) -> bool
    ensures { result ≡ is_there (select_from.read s.now) }
{
    match s {
        [0] => true,
        [1, table @ ..] => is_table(table),
        _ => false,
    }
}

// A record of a mark, the FROM, the items, the condition.
#[tactic(auto, using(crate::specs::Shapes::is_select_lem, bytes_bundle::specs::Laws::is_record_lem))]
pub fn is_select(s: &[u8]) -> bool
    ensures { result ≡ is_there (select.read s.now) }
{
    bytes_bundle::is_record(s, 2, 4)
        && are_marks(bytes_bundle::part(s, 2, 0), 1)
        && is_select_from(bytes_bundle::part(s, 2, 1))
        && are_items(bytes_bundle::part(s, 2, 2))
        && is_condition(bytes_bundle::part(s, 2, 3))
}

// Code 0: no plain SELECT, nothing is held. Code 1: the SELECT.
#[tactic(auto, using(crate::specs::Shapes::is_query_body_lem, bytes_bundle::specs::Heads::rest_lem))]
pub fn is_query_body(s: &[u8]) -> bool
    ensures { result ≡ is_there (query_body.read s.now) }
{
    match s {
        [0] => true,
        [1, select @ ..] => is_select(select),
        _ => false,
    }
}

// A mark and the body.
#[tactic(auto, using(crate::specs::Shapes::is_query_lem, bytes_bundle::specs::Heads::rest_lem))]
pub fn is_query(s: &[u8]) -> bool
    ensures { result ≡ is_there (selection.read s.now) }
{
    matches!(s, [mark, body @ ..] if *mark < 2 && is_query_body(body))
}

// ---- what a query holds

pub fn has_clauses(q: &[u8]) -> bool
    requires { Is selection q.now }
    ensures { (v : Query) → Holds selection q.now v → result ≡ v.clauses }
{
    q[0] == 1
}

pub fn body_of(q: &[u8]) -> &[u8]
    requires { Is selection q.now }
    ensures { (v : Query) → Holds selection q.now v → Holds query_body result.now v.body }
{
    behind(q)
}

// 0: no plain SELECT. 1: a SELECT.
pub fn body_code(b: &[u8]) -> u8
    requires { Is query_body b.now }
    ensures { (v : QueryBody) → Holds query_body b.now v → result ≡ body_no v }
{
    b[0]
}

pub fn select_of(b: &[u8]) -> &[u8]
    requires { Is query_body b.now }
    ensures { (s : Select) → Holds query_body b.now (plain_select s) → Holds select result.now s }
{
    behind(b)
}

pub fn has_features(s: &[u8]) -> bool
    requires { Is select s.now }
    ensures { (v : Select) → Holds select s.now v → result ≡ v.features }
{
    mark_in(s, 0)
}

pub fn from_of(s: &[u8]) -> &[u8]
    requires { Is select s.now }
    ensures { (v : Select) → Holds select s.now v → Holds select_from result.now v.from }
{
    bytes_bundle::part(s, 2, 1)
}

pub fn items_of(s: &[u8]) -> &[u8]
    requires { Is select s.now }
    ensures { (v : Select) → Holds select s.now v → Holds (list_of 2 item) result.now v.items }
{
    bytes_bundle::part(s, 2, 2)
}

pub fn condition_of(s: &[u8]) -> &[u8]
    requires { Is select s.now }
    ensures { (v : Select) → Holds select s.now v → Holds condition result.now v.condition }
{
    bytes_bundle::part(s, 2, 3)
}

// ---- its parts

// 0: another number of tables than one. 1: the table.
pub fn from_code(f: &[u8]) -> u8
    requires { Is select_from f.now }
    ensures { (v : From) → Holds select_from f.now v → result ≡ from_no v }
{
    f[0]
}

pub fn table_of(f: &[u8]) -> &[u8]
    requires { Is select_from f.now }
    ensures { (t : TableWithJoins) → Holds select_from f.now (one t) → Holds table_with_joins result.now t }
{
    behind(f)
}

// 0: any other. 1: `*`. 2: a column.
pub fn item_code(i: &[u8]) -> u8
    requires { Is item i.now }
    ensures { (v : Item) → Holds item i.now v → result ≡ item_no v }
{
    i[0]
}

pub fn column_of(i: &[u8]) -> &[u8]
    requires { Is item i.now }
    ensures { (n : Name) → Holds item i.now (column n) → Holds name result.now n }
{
    behind(i)
}
