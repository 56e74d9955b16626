// A row's image. `specs/Layout.antt` has its layout and the two round trips.
#![tactic(auto)]

mod column;
mod columns;

ghost use Rattle.std.specs.Prelude.{◌≡◌, ◌<◌, length};
ghost use Rattle.bytes_bundle.specs.Bundle.{is_there};
ghost use Rattle.bytes_bundle.specs.Held.{Holds, Is};
ghost use Rattle.image_value.specs.Parts.{value};
ghost use Rattle.image_catalogue.specs.Layout.{table};
ghost use Rattle.rules.specs.Tables.{TableSchema};
ghost use Rattle.rules.specs.Rows.{Row};
ghost use Rattle.rules.specs.Evaluate.{at};
ghost use Rattle.image_row.specs.Layout.{row};
ghost use Rattle.image_row.specs.Obeyed.{obeyed};

use crate::columns::values_obey;
use rules::Ordinal;

// Whether bytes are a row, of whatever table.
#[tactic(auto, unfolding(crate::specs::Layout::row))]
pub fn is_row(s: &[u8]) -> bool
    ensures { result ≡ is_there (row.read s.now) }
{
    bytes_bundle::is_bundle(s, 4) && bytes_bundle::iter(s, 4).all(image_value::is_value)
}

// Whether bytes are a row that obeys a table.
pub fn obeys(r: &[u8], t: &[u8]) -> bool
    requires { Is table t.now }
    ensures { (v : TableSchema) → Holds table t.now v → result ≡ obeyed v (row.read r.now) }
{
    values_obey(r, image_catalogue::columns(t))
}

// The value at a position: a part of the row.
pub fn value_at(r: &[u8], ordinal: Ordinal) -> &[u8]
    requires { Is row r.now × ((x : Row) → Holds row r.now x → ordinal.0 < length x) }
    ensures { (x : Row) → Holds row r.now x → Holds value result.now (at x ordinal) }
{
    let n = ordinal.0;
    bytes_bundle::part(r, 4, n)
}
