// The rows of an INSERT, written: a list of lists of values.
#![tactic(auto)]

ghost use Rattle.std.specs.Prelude.{◌+◌, ◌≤◌, length};
ghost use Rattle.bytes_wire.specs.Le.{le};
ghost use Rattle.bytes_wire.specs.Sets.{Wrote};
ghost use Rattle.bytes_format.proofs.Formats.{list_of};
ghost use Rattle.image_value.specs.Parts.{value};
ghost use Rattle.image_expression.specs.Expression.{expression};
ghost use Rattle.rules.specs.Answers.{each};
ghost use Rattle.rules.specs.Analyze.{insert_literal};
ghost use Rattle.write_insert_rows.specs.Listing.{Gives, Puts, literals};

use bind_literal::{Scalar, insert_literal, text_of};
use image_bound::values::{put_bool, put_int, put_null, put_text};

// How many parts a list has, or how long a part is. The statement's own counts have 2 bytes, so no number comes near 4.
pub fn put_length(out: &mut [u8], at: usize, n: usize) -> usize
    requires { at + 4 ≤ length out.old }
    ensures { Wrote out.old at (le 4 n) result out.new }
{
    bytes_wire::put(out, at, 4, n as u64)
}

#[tactic(auto, using(crate::specs::Values::literal_never, crate::specs::Values::int_puts, crate::specs::Values::text_puts, crate::specs::Values::bool_puts, crate::specs::Values::null_puts))]
fn put_value(out: &mut [u8], at: usize, e: &[u8]) -> usize
    requires { Gives expression e.now insert_literal value at out.old }
    ensures { Puts expression e.now insert_literal value out.old at result out.new }
{
    match insert_literal(e) {
        Ok(Scalar::Int(z)) => put_int(out, at, z),
        Ok(Scalar::Text) => put_text(out, at, text_of(e)),
        Ok(Scalar::Bool(b)) => put_bool(out, at, b),
        Ok(Scalar::Null) => put_null(out, at),
        // never: it is a literal
        Err(_) => at,
    }
}

// How many values, the length of each, the values.
fn put_row(out: &mut [u8], at: usize, row: &[u8]) -> usize
    requires { Gives (list_of 2 expression) row.now literals (list_of 4 value) at out.old }
    ensures { Puts (list_of 2 expression) row.now literals (list_of 4 value) out.old at result out.new }
{
    let n = bytes_bundle::parts(row, 2);
    let start = put_length(out, at, n);
    let mut lengths = start;
    let mut to = start + 4 * n;
    for e in bytes_bundle::iter(row, 2) {
        let next = put_value(out, to, e);
        lengths = put_length(out, lengths, next - to);
        to = next;
    }
    to
}

// The rows likewise.
pub fn put_rows(out: &mut [u8], at: usize, rows: &[u8]) -> usize
    requires { Gives (list_of 2 (list_of 2 expression)) rows.now (each literals) (list_of 4 (list_of 4 value)) at out.old }
    ensures { Puts (list_of 2 (list_of 2 expression)) rows.now (each literals) (list_of 4 (list_of 4 value)) out.old at result out.new }
{
    let n = bytes_bundle::parts(rows, 2);
    let start = put_length(out, at, n);
    let mut lengths = start;
    let mut to = start + 4 * n;
    for row in bytes_bundle::iter(rows, 2) {
        let next = put_row(out, to, row);
        lengths = put_length(out, lengths, next - to);
        to = next;
    }
    to
}
