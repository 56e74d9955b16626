// How many nodes a bound expression has.
ghost use Rattle.std.specs.Prelude.{◌≡◌, List, ℕ, ◌≤◌};
ghost use Rattle.rules.specs.Bound.{BoundExpr};
ghost use Rattle.tree.specs.Tree.{size};
ghost use Rattle.image_expression.specs.Place.{node_count, node_at, IsImage, HasNode};
ghost use Rattle.write_expression.specs.Binds.{BindsWhole};
ghost use Rattle.write_expression.specs.Counts.{weight};

use crate::nodes::signs_number;
use image_expression::{kind, nodes};

// How many nodes node i is bound to, without its operands: parentheses to none, a sign directly over a number to none but the number's.
fn own_nodes(e: &[u8], i: usize) -> usize
    requires { HasNode e.now i }
    ensures { result ≡ weight (node_at e.now) i }
{
    let k = kind(e, i);
    if k == 9 {
        return 0;
    }
    if k < 12 {
        return 1;
    }
    if signs_number(e, i - 1, k) {
        return 0;
    }
    1
}

pub fn bound_nodes(e: &[u8]) -> usize
    requires { IsImage e.now }
    ensures few { result ≤ node_count e.now }
    ensures told { (t : List ℕ) (b : BoundExpr) → BindsWhole t e.now b → result ≡ size b }
{
    let n = nodes(e);
    let mut sum = 0;
    for i in 0..n {
        sum += own_nodes(e, i);
    }
    sum
}
