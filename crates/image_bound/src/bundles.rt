// What stands before the parts of a record, and a whole list: the ids of a primary key.
ghost use Rattle.std.specs.Prelude.{◌≡◌, List, ℕ, ◌+◌, ◌*◌, ◌≤◌, length, take};
ghost use Rattle.bytes_wire.specs.Sets.{Wrote};
ghost use Rattle.bytes_format.proofs.Formats.{alone, list_of};
ghost use Rattle.image_value.specs.Parts.{column_id};
ghost use Rattle.image_bound.specs.Bundles.{head2, head3, bodies};
ghost use Rattle.image_bound.specs.Made.{column_ids};
ghost use Rattle.image_bound.specs.Spelt.{id_lengths};

use crate::fields::{put_count, put_id};
use rules::ColumnId;

// A record of two parts, whose lengths are a and b: its first 12 bytes.
pub fn put_head2(out: &mut [u8], at: usize, a: usize, b: usize) -> usize
    requires { at + 12 ≤ length out.old }
    ensures { Wrote out.old at (head2 a b) result out.new }
{
    let first = bytes_wire::put(out, at, 4, 2);
    let second = bytes_wire::put(out, first, 4, a as u64);
    bytes_wire::put(out, second, 4, b as u64)
}

// A record of three parts, whose lengths are a, b and c: its first 16 bytes.
pub fn put_head3(out: &mut [u8], at: usize, a: usize, b: usize, c: usize) -> usize
    requires { at + 16 ≤ length out.old }
    ensures { Wrote out.old at (head3 a b c) result out.new }
{
    let first = bytes_wire::put(out, at, 4, 3);
    let second = bytes_wire::put(out, first, 4, a as u64);
    let third = bytes_wire::put(out, second, 4, b as u64);
    bytes_wire::put(out, third, 4, c as u64)
}

// The length of each of n ids: 8.
fn put_id_lengths(out: &mut [u8], at: usize, n: usize) -> usize
    requires { at + 4 * n ≤ length out.old }
    ensures { Wrote out.old at (id_lengths n) result out.new }
{
    let mut to = at;
    for _ in 0..n {
        to = bytes_wire::put(out, to, 4, 8);
    }
    to
}

fn put_id_bodies(out: &mut [u8], at: usize, ids: &[ColumnId]) -> usize
    requires { at + 8 * length ids.now ≤ length out.old }
    ensures { Wrote out.old at (bodies (alone column_id) ids.now) result out.new }
{
    let mut to = at;
    for id in ids {
        to = put_id(out, to, *id);
    }
    to
}

// The first n of the ids.
pub fn put_ids(out: &mut [u8], at: usize, ids: [ColumnId; 64], n: usize) -> usize
    requires { (n ≤ 64) × (at + (4 + 12 * n) ≤ length out.old) }
    ensures { Wrote out.old at ((list_of 4 (alone column_id)).write (take n ids)) result out.new }
{
    let a = put_count(out, at, n);
    let b = put_id_lengths(out, a, n);
    put_id_bodies(out, b, &ids[..n])
}

// No key is longer than an image may be, so nothing wraps.
pub fn ids_len(n: usize) -> usize
    requires { n ≤ 65536 }
    ensures { (result ≡ 4 + 12 * n) × ((ids : List ℕ) → length ids ≡ n → result ≡ length ((list_of 4 (alone column_id)).write (column_ids ids))) }
{
    4 + 12 * n
}
