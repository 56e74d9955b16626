// An UPDATE over its table, run on one row: 10, 11, 9, or the new row.
#![tactic(auto)]

ghost use Rattle.std.specs.Prelude.{length};
ghost use Rattle.rules.specs.Heard.{Running};
ghost use Rattle.op_reply.specs.Leaves.{Leaves, told};
ghost use Rattle.run_row.specs.Updates.{Runnable};
ghost use Rattle.run_update.specs.OnRow.{update_bytes};
ghost use Rattle.run_update.specs.Ready.{Over, SomeOver, Holding};
ghost use Rattle.run_update.specs.Rows.{RowSized};

use image_update::{assignments, condition_of};
use op_reply::Refused;
use run_row::{row_size, write_row};

// A row whose image is this long: the image, where there is room. Nothing is written before there is room for all of it.
fn put_row<'a>(
    t: &'a [u8],
    list: &'a [u8],
    w: &'a [u8],
    r: &'a [u8],
    out: &mut [u8],
    size: usize,
) -> Result<usize, Refused>
    requires { RowSized t.now list.now w.now r.now size }
    ensures { (u : Running) → Holding t.now list.now w.now u
        → Leaves (update_bytes u r.now (length out.old)) out.old (told result) out.new }
{
    if out.len() < size {
        return Err(Refused::NoRoom);
    }
    let written = write_row(t, list, w, r, out);
    Ok(written)
}

// On a row that obeys the table: 11 before 9.
fn run_row<'a>(
    t: &'a [u8],
    list: &'a [u8],
    w: &'a [u8],
    r: &'a [u8],
    out: &mut [u8],
) -> Result<usize, Refused>
    requires { Runnable t.now list.now w.now r.now }
    ensures { (u : Running) → Holding t.now list.now w.now u
        → Leaves (update_bytes u r.now (length out.old)) out.old (told result) out.new }
{
    match row_size(t, list, w, r) {
        Some(size) => put_row(t, list, w, r, out, size),
        None => Err(Refused::Fault),
    }
}

// Over its table: 10 before the row is looked into.
pub fn run_over<'a>(t: &'a [u8], b: &'a [u8], r: &'a [u8], out: &mut [u8]) -> Result<usize, Refused>
    requires { SomeOver t.now b.now }
    ensures { (u : Running) → Over t.now b.now u
        → Leaves (update_bytes u r.now (length out.old)) out.old (told result) out.new }
{
    if !image_row::obeys(r, t) {
        return Err(Refused::NoRow);
    }
    run_row(t, assignments(b), condition_of(b), r, out)
}
