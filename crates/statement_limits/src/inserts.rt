// INSERT: its name, its columns, and the rows that it gives.
ghost use Rattle.std.specs.Prelude.{◌≡◌};
ghost use Rattle.bytes_bundle.specs.Held.{Is, Holds};
ghost use Rattle.rules.specs.Statements.{SourceBody, Insert};
ghost use Rattle.rules.specs.Limits.{body_rows, held_by_insert, held_within};
ghost use Rattle.image_parts.specs.Layout.{source_body, insertion};
ghost use Rattle.statement_limits.specs.Within.{list_within, row_within, source_within};

use crate::entries::is_row_within;
use crate::lists::is_list_within;
use crate::names::{is_name_within, is_object_name_within};

fn is_body_within(b: &[u8]) -> bool
    requires { Is source_body b.now }
    ensures { (v : SourceBody) → Holds source_body b.now v → result ≡ list_within 1024 row_within (body_rows v) }
{
    if !image_insert::is_values(b) {
        return true;
    }
    is_list_within(image_insert::rows_of(b), 1024, is_row_within)
}

fn is_source_within(i: &[u8]) -> bool
    requires { Is insertion i.now }
    ensures { (v : Insert) → Holds insertion i.now v → result ≡ source_within v.source }
{
    if !image_insert::has_source(i) {
        return true;
    }
    is_body_within(image_insert::body_of(image_insert::source_of(i)))
}

pub fn is_insert_within(i: &[u8]) -> bool
    requires { Is insertion i.now }
    ensures { (v : Insert) → Holds insertion i.now v → result ≡ held_within (held_by_insert v) }
{
    is_object_name_within(image_insert::table_name(i))
        && is_list_within(image_insert::columns(i), 64, is_name_within)
        && is_source_within(i)
}
