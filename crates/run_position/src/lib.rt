// One position of the row that an UPDATE makes: the old value, or the one that an assignment comes to.
#![tactic(auto)]

ghost use Rattle.std.specs.Prelude.{◌≡◌, ◌≤◌, length};
ghost use Rattle.bytes_wire.specs.Sets.{Wrote};
ghost use Rattle.bytes_bundle.specs.Held.{Holds};
ghost use Rattle.bind_where.specs.Short.{ShortExpression};
ghost use Rattle.run_plan.specs.Runs.{Runs};
ghost use Rattle.rules.specs.Bound.{Value};
ghost use Rattle.bind_update.specs.Within.{ShortAssignments};
ghost use Rattle.image_value.specs.Parts.{value};
ghost use Rattle.run_position.specs.Drawing.{Comes, Drawing, Kept, Gives, Given, Draws, DrawsInto};

use image_row::value_at;
use image_update::value_of;
use rules::Ordinal;
use run_plan::work_out;
use run_worth::{put_worth, worth_len};

// A value that stands in the row is copied as it is.
fn kept_len(p: &[u8]) -> usize
    ensures { (u : Value) → Holds value p.now u → result ≡ length (value.write u) }
{
    p.len()
}

fn put_kept(out: &mut [u8], at: usize, p: &[u8]) -> usize
    requires { Kept p.now out.old at }
    ensures { (u : Value) → Holds value p.now u → Wrote out.old at (value.write u) result out.new }
{
    bytes_wire::put_all(out, at, p)
}

fn given_len(t: &[u8], e: &[u8], r: &[u8]) -> usize
    requires { (Runs t.now r.now × ShortExpression e.now) × Gives t.now e.now r.now }
    ensures { (result ≤ 4294967296) × ((u : Value) → Comes t.now e.now r.now u → result ≡ length (value.write u)) }
{
    worth_len(work_out(t, e, r).unwrap())
}

fn put_given(out: &mut [u8], at: usize, t: &[u8], e: &[u8], r: &[u8]) -> usize
    requires { (Runs t.now r.now × ShortExpression e.now) × Given t.now e.now r.now out.old at }
    ensures { (u : Value) → Comes t.now e.now r.now u
        → Wrote out.old at (value.write u) result out.new }
{
    let w = work_out(t, e, r).unwrap();
    put_worth(out, at, w)
}

// The value at position p: what assignment k comes to, or the old one where there is none.
pub fn value_len(t: &[u8], s: &[u8], r: &[u8], p: usize, k: Option<usize>) -> usize
    requires { (Runs t.now r.now × ShortAssignments s.now) × Draws t.now s.now r.now p k }
    ensures { (result ≤ 4294967296) × ((u : Value) → Drawing t.now s.now r.now p k u → result ≡ length (value.write u)) }
{
    match k {
        None => kept_len(value_at(r, Ordinal(p))),
        Some(i) => given_len(t, value_of(bytes_bundle::part(s, 2, i)), r),
    }
}

pub fn put_value(
    out: &mut [u8],
    at: usize,
    t: &[u8],
    s: &[u8],
    r: &[u8],
    p: usize,
    k: Option<usize>,
) -> usize
    requires { (Runs t.now r.now × ShortAssignments s.now) × DrawsInto t.now s.now r.now p k out.old at }
    ensures { (u : Value) → Drawing t.now s.now r.now p k u
        → Wrote out.old at (value.write u) result out.new }
{
    match k {
        None => put_kept(out, at, value_at(r, Ordinal(p))),
        Some(i) => put_given(out, at, t, value_of(bytes_bundle::part(s, 2, i)), r),
    }
}
