// INSERT: its columns, and the rows that it gives.
#![tactic(auto)]

ghost use Rattle.std.specs.Prelude.{◌≡◌, Bool, List};
ghost use Rattle.std.proofs.Math.Option.{some};
ghost use Rattle.bytes_format.specs.Ways.{optional_read};
ghost use Rattle.bytes_format.proofs.Formats.{list_of};
ghost use Rattle.bytes_bundle.specs.Bundle.{is_there};
ghost use Rattle.image_expression.specs.Expression.{expression};
ghost use Rattle.rules.specs.Statements.{Expr, SourceBody, values, Source, Insert};
ghost use Rattle.image_parts.specs.Layout.{name, object_name, source_body, source, insertion};
ghost use Rattle.image_insert.specs.Shapes.{values_form};
ghost use Rattle.bytes_bundle.specs.Held.{Is, Holds, Shows};
ghost use Rattle.image_insert.specs.Held.{is_values};

use image_parts::heads::{are_marks, behind};
use image_parts::names::{are_names, is_object_name};

// One row.
pub fn are_expressions(s: &[u8]) -> bool
    ensures { result ≡ is_there ((list_of 2 expression).read s.now) }
{
    bytes_bundle::is_bundle(s, 2) && bytes_bundle::iter(s, 2).all(image_expression::is_expression)
}

pub fn are_rows(s: &[u8]) -> bool
    ensures { result ≡ is_there ((list_of 2 (list_of 2 expression)).read s.now) }
{
    bytes_bundle::is_bundle(s, 2) && bytes_bundle::iter(s, 2).all(are_expressions)
}

// What follows the code of VALUES: a mark and the rows.
#[tactic(auto, using(crate::specs::Shapes::are_values_lem, bytes_bundle::specs::Heads::rest_lem))]
fn are_values(v: &[u8]) -> bool
    ensures { result ≡ is_there (values_form.read v.now) }
{
    matches!(v, [mark, rows @ ..] if *mark < 2 && are_rows(rows))
}

// Code 0: no VALUES, and nothing of it is held. Code 1: VALUES.
#[tactic(auto, using(crate::specs::Shapes::is_source_body_lem, bytes_bundle::specs::Heads::rest_lem))]
pub fn is_source_body(s: &[u8]) -> bool
    ensures { result ≡ is_there (source_body.read s.now) }
{
    match s {
        [0] => true,
        [1, values @ ..] => are_values(values),
        _ => false,
    }
}

// A mark and a body.
#[tactic(auto, using(crate::specs::Shapes::is_source_lem, bytes_bundle::specs::Heads::rest_lem))]
pub fn is_source(s: &[u8]) -> bool
    ensures { result ≡ is_there (source.read s.now) }
{
    matches!(s, [mark, body @ ..] if *mark < 2 && is_source_body(body))
}

// No byte at all where there is no source; a source has two bytes at least.
#[tactic(auto, using(crate::specs::Shapes::no_source, crate::specs::Shapes::some_source))]
fn is_maybe_source(s: &[u8]) -> bool
    ensures { result ≡ is_there (optional_read source s.now) }
{
    s.is_empty() || is_source(s)
}

// A mark, a name, the columns and the source.
#[tactic(auto, using(crate::specs::Shapes::is_insert_lem, bytes_bundle::specs::Laws::is_record_lem))]
pub fn is_insert(s: &[u8]) -> bool
    ensures { result ≡ is_there (insertion.read s.now) }
{
    bytes_bundle::is_record(s, 2, 4)
        && are_marks(bytes_bundle::part(s, 2, 0), 1)
        && is_object_name(bytes_bundle::part(s, 2, 1))
        && are_names(bytes_bundle::part(s, 2, 2))
        && is_maybe_source(bytes_bundle::part(s, 2, 3))
}

// ---- what an INSERT holds

pub fn is_modified(i: &[u8]) -> bool
    requires { Is insertion i.now }
    ensures { (v : Insert) → Holds insertion i.now v → result ≡ v.modified }
{
    let m = bytes_bundle::part(i, 2, 0);
    m[0] == 1
}

pub fn table_name(i: &[u8]) -> &[u8]
    requires { Is insertion i.now }
    ensures { (v : Insert) → Holds insertion i.now v → Holds object_name result.now v.name }
{
    bytes_bundle::part(i, 2, 1)
}

pub fn columns(i: &[u8]) -> &[u8]
    requires { Is insertion i.now }
    ensures { (v : Insert) → Holds insertion i.now v → Holds (list_of 2 name) result.now v.columns }
{
    bytes_bundle::part(i, 2, 2)
}

pub fn has_source(i: &[u8]) -> bool
    requires { Is insertion i.now }
    ensures { (v : Insert) → Holds insertion i.now v → result ≡ is_there v.source }
{
    let s = bytes_bundle::part(i, 2, 3);
    s.len() != 0
}

// Where there is a source; no byte otherwise.
pub fn source_of(i: &[u8]) -> &[u8]
    requires { Is insertion i.now }
    ensures { (v : Insert) (q : Source) → Holds insertion i.now v → v.source ≡ some q → Holds source result.now q }
{
    bytes_bundle::part(i, 2, 3)
}

// ---- a source

pub fn has_clauses(s: &[u8]) -> bool
    requires { Is source s.now }
    ensures { (v : Source) → Holds source s.now v → result ≡ v.clauses }
{
    s[0] == 1
}

pub fn body_of(s: &[u8]) -> &[u8]
    requires { Is source s.now }
    ensures { (v : Source) → Holds source s.now v → Holds source_body result.now v.body }
{
    behind(s)
}

pub fn is_values(b: &[u8]) -> bool
    requires { Is source_body b.now }
    ensures { (v : SourceBody) → Holds source_body b.now v → result ≡ is_values v }
{
    b[0] == 1
}

pub fn explicit_row(b: &[u8]) -> bool
    requires { Shows source_body is_values b.now }
    ensures { (m : Bool) (rows : List (List Expr)) → Holds source_body b.now (values m rows) → result ≡ m }
{
    b[1] == 1
}

pub fn rows_of(b: &[u8]) -> &[u8]
    requires { Shows source_body is_values b.now }
    ensures { (m : Bool) (rows : List (List Expr)) → Holds source_body b.now (values m rows) → Holds (list_of 2 (list_of 2 expression)) result.now rows }
{
    &b[2..]
}
