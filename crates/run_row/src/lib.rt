// The row that an UPDATE makes of a row: measured, or a fault; and written.
#![tactic(auto)]

ghost use Rattle.std.specs.Prelude.{◌≡◌, List, ◌+◌, length};
ghost use Rattle.bytes_wire.specs.Sets.{Wrote};
ghost use Rattle.bytes_format.proofs.Formats.{list_of};
ghost use Rattle.bytes_bundle.specs.Held.{Holds};
ghost use Rattle.image_catalogue.specs.Layout.{table};
ghost use Rattle.image_expression.specs.Expression.{expression};
ghost use Rattle.run_plan.specs.Runs.{Runs};
ghost use Rattle.image_row.specs.Layout.{row};
ghost use Rattle.rules.specs.Evaluate.{worked, update_row};
ghost use Rattle.rules.specs.Rows.{Row};
ghost use Rattle.rules.specs.Statements.{Assignment, Expr};
ghost use Rattle.rules.specs.Tables.{TableSchema};
ghost use Rattle.image_parts.specs.Layout.{assignment};
ghost use Rattle.bind_update.specs.Within.{ShortAssignments};
ghost use Rattle.run_position.specs.Drawing.{RowDrawn, RowDraws, RowDrawsInto};
ghost use Rattle.run_row.specs.Updates.{ran, Runnable, Writable};

use image_bound::fields::{count_len, put_count};
use run_plan::{plan, work_out};
use run_position::{put_value, value_len};
use run_worth::is_true;

// The values position by position, each behind its length.
fn values_len(t: &[u8], s: &[u8], r: &[u8], from: &[Option<usize>; 64]) -> usize
    requires { (Runs t.now r.now × ShortAssignments s.now) × RowDraws t.now s.now r.now from.now }
    ensures { (z : Row) → RowDrawn t.now s.now r.now from.now z → result ≡ length (row.write z) }
{
    let n = bytes_bundle::parts(r, 4);
    let mut sum = count_len();
    for p in 0..n {
        sum += count_len() + value_len(t, s, r, p, from[p]);
    }
    sum
}

fn put_values(out: &mut [u8], t: &[u8], s: &[u8], r: &[u8], from: &[Option<usize>; 64]) -> usize
    requires { (Runs t.now r.now × ShortAssignments s.now) × RowDrawsInto t.now s.now r.now from.now out.old }
    ensures { (z : Row) → RowDrawn t.now s.now r.now from.now z
        → Wrote out.old 0 (row.write z) result out.new }
{
    let n = bytes_bundle::parts(r, 4);
    let lengths = put_count(out, 0, n);
    let mut to = lengths;
    let mut body = lengths + 4 * n;
    for p in 0..n {
        let after = put_value(out, body, t, s, r, p, from[p]);
        to = bytes_wire::put(out, to, 4, (after - body) as u64);
        body = after;
    }
    body
}

// How long the new row's image is, or None: an arithmetic fault, or what has no rule. If WHERE isn't TRUE, the row as it is.
pub fn row_size(t: &[u8], assignments: &[u8], condition: &[u8], r: &[u8]) -> Option<usize>
    requires { Runnable t.now assignments.now condition.now r.now }
    ensures { (v : TableSchema) (xs : List Assignment) (y : Expr) (x : Row) → Holds table t.now v
        → Holds (list_of 2 assignment) assignments.now xs → Holds expression condition.now y → Holds row r.now x
        → result ≡ ran (update_row v y xs x) }
{
    let w = work_out(t, condition, r)?;
    if !is_true(w) {
        return Some(r.len());
    }
    let from = plan(t, assignments, r)?;
    Some(values_len(t, assignments, r, &from))
}

// It is known to be worked out and to have room.
pub fn write_row(t: &[u8], assignments: &[u8], condition: &[u8], r: &[u8], out: &mut [u8]) -> usize
    requires { Writable t.now assignments.now condition.now r.now out.old }
    ensures { (v : TableSchema) (xs : List Assignment) (y : Expr) (x z : Row) → Holds table t.now v
        → Holds (list_of 2 assignment) assignments.now xs → Holds expression condition.now y → Holds row r.now x
        → update_row v y xs x ≡ worked z → Wrote out.old 0 (row.write z) result out.new }
{
    let w = work_out(t, condition, r).unwrap();
    if !is_true(w) {
        return bytes_wire::put_all(out, 0, r);
    }
    let from = plan(t, assignments, r).unwrap();
    put_values(out, t, assignments, r, &from)
}
