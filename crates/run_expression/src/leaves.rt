// The leaves of an expression, and a sign directly over a number.
ghost use Rattle.std.specs.Prelude.{◌≡◌, ◌&&◌, List, ℕ, ◌<◌, ◌≤◌, leb, ltb, eqb, length};
ghost use Rattle.bytes_bundle.specs.Held.{Is, Holds};
ghost use Rattle.image_catalogue.specs.Layout.{table};
ghost use Rattle.image_expression.specs.Place.{node_at, HasNode};
ghost use Rattle.text_names.specs.Compared.{named};
ghost use Rattle.image_row.specs.Layout.{row};
ghost use Rattle.rules.specs.Evaluate.{at, column_value, literal_value};
ghost use Rattle.rules.specs.Lookup.{column_by_name};
ghost use Rattle.rules.specs.Names.{canonical};
ghost use Rattle.rules.specs.Numbers.{integer_literal};
ghost use Rattle.rules.specs.Rows.{Row};
ghost use Rattle.rules.specs.Tables.{TableSchema};
ghost use Rattle.run_values.specs.Worths.{ordinal, told, heard, value_of, text_size, text_size_of};
ghost use Rattle.run_expression.specs.Works.{Workable, Works, ObeysTable, StandsAt};

use catalogue_lookup::find_column;
use image_expression::{kind, text};
use image_row::value_at;
use rules::Ordinal;
use run_values::Worth;
use text_numbers::integer_literal;

// A number, under a minus or not: its text must be one of 64 signed bits.
pub fn number<'a>(s: &[u8], negative: bool) -> Option<Worth<'a>>
    ensures value { heard value_of result ≡ told (literal_value (integer_literal negative s.now)) }
    ensures short { text_size_of result < 4294967295 }
{
    Some(Worth::Int(integer_literal(s, negative)?))
}

// Whether an operator of kind k over node j is a sign, 12 or 13, directly over a number.
pub fn signs_number(e: &[u8], j: usize, k: u8) -> bool
    requires { HasNode e.now j }
    ensures { result ≡ (leb 12 k && (ltb k 14 && eqb (node_at e.now j).kind 2)) }
{
    12 <= k && k < 14 && kind(e, j) == 2
}

// The value at a position of the row.
fn stored(r: &[u8], n: usize) -> Worth
    requires { StandsAt r.now n }
    ensures value { (x : Row) → Holds row r.now x → value_of result ≡ at x (ordinal n) }
    ensures short { text_size result < 4294967295 }
{
    let v = value_at(r, Ordinal(n));
    match image_value::type_code(v) {
        0 => Worth::Int(image_value::int_of(v)),
        1 => Worth::Text(image_value::text_of(v)),
        2 => Worth::Bool(image_value::bool_of(v)),
        _ => Worth::Null,
    }
}

// A name stands for a column of the table, and the column's position says which value of the row it is.
fn column<'a>(t: &[u8], quoted: bool, name: &[u8], r: &'a [u8]) -> Option<Worth<'a>>
    requires { Is table t.now × ((length name.now ≤ 128) × ObeysTable t.now r.now) }
    ensures value { (v : TableSchema) → Holds table t.now v → (x : Row) → Holds row r.now x
        → heard value_of result ≡ told (column_value x (column_by_name v (canonical (named quoted name.now)))) }
    ensures short { text_size_of result < 4294967295 }
{
    match find_column(t, quoted, name) {
        Some(c) => Some(stored(r, c.ordinal.0)),
        None => None,
    }
}

// A leaf by its kind: 0 a name, 1 a quoted one, 2 a number, 3 a string, 4 TRUE, 5 FALSE, 6 NULL; 7 and 8 have no rule.
pub fn leaf<'a>(t: &[u8], e: &'a [u8], i: usize, r: &'a [u8], k: u8) -> Option<Worth<'a>>
    requires workable { Workable t.now e.now i r.now }
    requires k_value { (k ≡ (node_at e.now i).kind) × (k < 9) }
    ensures works { Works t.now e.now i r.now result }
    ensures short { text_size_of result < 4294967295 }
{
    match k {
        0 => column(t, false, text(e, i), r),
        1 => column(t, true, text(e, i), r),
        2 => number(text(e, i), false),
        3 => Some(Worth::Text(text(e, i))),
        4 => Some(Worth::Bool(true)),
        5 => Some(Worth::Bool(false)),
        6 => Some(Worth::Null),
        _ => None,
    }
}
