// INSERT: its name, its columns, and the names in its rows.
ghost use Rattle.std.specs.Prelude.{◌≡◌, List};
ghost use Rattle.bytes_format.proofs.Formats.{list_of};
ghost use Rattle.bytes_bundle.specs.Held.{Is, Holds};
ghost use Rattle.rules.specs.Statements.{Expr, SourceBody, Insert};
ghost use Rattle.rules.specs.Limits.{gather, expression_names, body_rows, source_rows, held_by_insert};
ghost use Rattle.image_expression.specs.Expression.{expression};
ghost use Rattle.image_parts.specs.Layout.{source_body, insertion};
ghost use Rattle.statement_ascii.specs.Beyond.{Beyond};

use crate::named::{name_beyond, object_name_beyond, value_beyond};

fn row_beyond(r: &[u8]) -> bool
    requires { Is (list_of 2 expression) r.now }
    ensures { (v : List Expr) → Holds (list_of 2 expression) r.now v → result ≡ Beyond (gather expression_names v) }
{
    bytes_bundle::iter(r, 2).any(value_beyond)
}

fn body_beyond(b: &[u8]) -> bool
    requires { Is source_body b.now }
    ensures { (v : SourceBody) → Holds source_body b.now v → result ≡ Beyond (gather (gather expression_names) (body_rows v)) }
{
    if !image_insert::is_values(b) {
        return false;
    }
    bytes_bundle::iter(image_insert::rows_of(b), 2).any(row_beyond)
}

fn source_beyond(i: &[u8]) -> bool
    requires { Is insertion i.now }
    ensures { (v : Insert) → Holds insertion i.now v → result ≡ Beyond (gather (gather expression_names) (source_rows v.source)) }
{
    if !image_insert::has_source(i) {
        return false;
    }
    body_beyond(image_insert::body_of(image_insert::source_of(i)))
}

pub fn insert_beyond(i: &[u8]) -> bool
    requires { Is insertion i.now }
    ensures { (v : Insert) → Holds insertion i.now v → result ≡ Beyond (held_by_insert v).names }
{
    object_name_beyond(image_insert::table_name(i))
        || bytes_bundle::iter(image_insert::columns(i), 2).any(name_beyond)
        || source_beyond(i)
}
