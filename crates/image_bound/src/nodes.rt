// A node of a bound expression's run.
ghost use Rattle.std.specs.Prelude.{◌≡◌, ℕ, ◌+◌, ◌≤◌, length};
ghost use Rattle.bytes_wire.specs.Sets.{Wrote};
ghost use Rattle.rules.specs.declared.Mark.{Mark};
ghost use Rattle.image_bound.specs.Nodes.{node_bytes};

use crate::fields::{put_byte, put_marks};
use rules::Mark;

// The bytes of a node, without what a leaf holds.
pub const NODE: usize = 11;

// Kind, type, nullable, then the span and the end of the content, 4 bytes each.
pub fn put_node(out: &mut [u8], at: usize, kind: u8, mark: Mark, span: usize, end: usize) -> usize
    requires { at + 11 ≤ length out.old }
    ensures { Wrote out.old at (node_bytes kind mark span end) result out.new }
{
    let a = put_byte(out, at, kind);
    let b = put_marks(out, a, mark);
    let c = bytes_wire::put(out, b, 4, span as u64);
    bytes_wire::put(out, c, 4, end as u64)
}
