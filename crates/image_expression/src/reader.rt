// What is tested at each node of what may be an expression's run.
ghost use Rattle.std.specs.Prelude.{◌≡◌};
ghost use Rattle.image_expression.specs.Place.{node_at, Room};
ghost use Rattle.image_expression.specs.Reader.{content_ok, shape_ok};

use crate::layout::{bytes_behind, end, kind, span, start, text};

// Whether the content of node i lies where it may, and is what the kind may hold: UTF-8 for a name, a number or a string, nothing for the
// others.
pub fn content_ok(s: &[u8], i: usize) -> bool
    requires { Room s.now i }
    ensures { result ≡ content_ok s.now i }
{
    let from = start(s, i);
    let to = end(s, i);
    if to < from {
        return false;
    }
    if bytes_behind(s) < to {
        return false;
    }
    if kind(s, i) < 4 {
        return bytes_utf8::is_utf8(text(s, i));
    }
    to == from
}

// Whether node i is the root of a tree by its kind and the spans, where each node before it is the root of one.
pub fn shape_ok(s: &[u8], i: usize) -> bool
    requires { Room s.now i }
    ensures { result ≡ shape_ok (node_at s.now) i }
{
    let k = kind(s, i);
    let n = span(s, i);
    if k < 9 {
        return n == 1;
    }
    if 30 <= k {
        return false;
    }
    if i == 0 {
        return false;
    }
    let right = span(s, i - 1);
    if k < 16 {
        return n == right + 1;
    }
    if i <= right {
        return false;
    }
    let left = span(s, i - 1 - right);
    n == left + right + 1
}
