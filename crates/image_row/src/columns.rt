// A row's values beside a table's columns.
ghost use Rattle.std.specs.Prelude.{◌≡◌, List};
ghost use Rattle.bytes_format.proofs.Formats.{list_of};
ghost use Rattle.bytes_bundle.specs.Held.{Holds, Is};
ghost use Rattle.image_value.specs.Parts.{column_schema};
ghost use Rattle.rules.specs.Tables.{ColumnSchema};
ghost use Rattle.image_row.specs.Layout.{row};
ghost use Rattle.image_row.specs.Obeyed.{values_obeyed};

use crate::column::value_obeys;

// Whether bytes are a row with a value for each column, each of which obeys its own: one pass over both.
pub fn values_obey(r: &[u8], list: &[u8]) -> bool
    requires { Is (list_of 2 (column_schema 2)) list.now }
    ensures { (cs : List ColumnSchema) → Holds (list_of 2 (column_schema 2)) list.now cs → result ≡ values_obeyed cs (row.read r.now) }
{
    if !bytes_bundle::is_record(r, 4, bytes_bundle::parts(list, 2)) {
        return false;
    }
    for (value, column) in bytes_bundle::iter(r, 4).zip(bytes_bundle::iter(list, 2)) {
        if !value_obeys(value, column) {
            return false;
        }
    }
    true
}
