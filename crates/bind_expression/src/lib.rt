// Marks the nodes of an expression over a table, and measures the bound expression on the way. A node's operands are marked before the node,
// the left one first; the node's number falls on the way round, and the calls are as deep as the expression.
#![tactic(auto)]

mod leaves;
mod nodes;

ghost use Rattle.std.specs.Prelude.{◌≡◌, ◌<◌, ◌≤◌, length};
ghost use Rattle.rules.specs.Bound.{BoundExpr};
ghost use Rattle.image_bound.specs.Expression.{bound_expression};
ghost use Rattle.bytes_bundle.specs.Held.{Is};
ghost use Rattle.image_catalogue.specs.Layout.{table};
ghost use Rattle.image_expression.specs.Expression.{expression};
ghost use Rattle.image_expression.specs.Place.{node_at};
ghost use Rattle.bind_expression.specs.Told.{measured};
ghost use Rattle.bind_expression.specs.Marks.{NamesWithin, Markable, Marks, Sizes};
ghost use Rattle.bind_expression.specs.Small.{Small};

use image_bound::fields::count_len;
use image_expression::{kind, span, text};
use leaves::{leaf, number};
use nodes::{null_test, one_operand, signs_number, two_operands};
use rules::{Mark, Refusal};

// What a node is bound to: its mark, and how many bytes its nodes and what its leaves hold take in the bound image. One number, since an answer
// is copied at each return and only the sum is asked for.
#[derive(Clone, Copy)]
pub struct Measured {
    pub mark: Mark,
    pub size: usize,
}

// The answer of node i, as docs/IMAGES.md numbers the kinds: 9 parentheses, 10 IS NULL, 11 IS NOT NULL, 12 to 15 one operand, from 16 on two.
#[cycle(mark_mark_binary_mark_null_test_mark_unary)]
pub fn mark(t: &[u8], e: &[u8], i: usize) -> Result<Measured, Refusal>
    requires { Markable t.now e.now i }
    ensures { Marks t.now e.now i result }
{
    let k = kind(e, i);
    if k < 9 {
        return leaf(t, e, i, k);
    }
    if 16 <= k {
        return mark_binary(t, e, i, k);
    }
    // as inside, with no node of their own
    if k == 9 {
        return mark(t, e, i - 1);
    }
    if k < 12 {
        return mark_null_test(t, e, i, k);
    }
    mark_unary(t, e, i, k)
}

// IS NULL and IS NOT NULL: what the operand's mark is does not matter, but it must have one.
#[cycle(mark_mark_binary_mark_null_test_mark_unary)]
fn mark_null_test(t: &[u8], e: &[u8], i: usize, k: u8) -> Result<Measured, Refusal>
    requires markable { Markable t.now e.now i }
    requires k_value { (k ≡ (node_at e.now i).kind) × ((10 ≤ k) × (k < 12)) }
    ensures { Marks t.now e.now i result }
{
    let m = mark(t, e, i - 1)?;
    Ok(null_test(m))
}

// A sign, which makes one literal with a number directly below it, NOT, or another operator.
#[cycle(mark_mark_binary_mark_null_test_mark_unary)]
fn mark_unary(t: &[u8], e: &[u8], i: usize, k: u8) -> Result<Measured, Refusal>
    requires markable { Markable t.now e.now i }
    requires k_value { (k ≡ (node_at e.now i).kind) × ((12 ≤ k) × (k < 16)) }
    ensures { Marks t.now e.now i result }
{
    let below = i - 1;
    if signs_number(e, below, k) {
        return number(text(e, below), k == 13);
    }
    let m = mark(t, e, below)?;
    one_operand(k, m)
}

#[cycle(mark_mark_binary_mark_null_test_mark_unary)]
fn mark_binary(t: &[u8], e: &[u8], i: usize, k: u8) -> Result<Measured, Refusal>
    requires markable { Markable t.now e.now i }
    requires k_value { (k ≡ (node_at e.now i).kind) × (16 ≤ k) }
    ensures { Marks t.now e.now i result }
{
    let right = i - 1;
    let left = right - span(e, right);
    let a = mark(t, e, left)?;
    let b = mark(t, e, right)?;
    two_operands(k, a, b)
}

// ---- a whole expression

// What an expression is bound to: the mark of its root, and the length of the bound expression's image.
#[derive(Clone, Copy)]
pub struct BoundExpression {
    pub mark: Mark,
    pub len: usize,
}

// The length of the bound expression's image: how many nodes it has stands in front of them.
fn run_len(m: Measured) -> usize
    requires { Small m }
    ensures { (b : BoundExpr) → measured b ≡ m → result ≡ length (bound_expression.write b) }
{
    count_len() + m.size
}

// The mark of an expression, whose root is its last node, and the length of what it is bound to.
pub fn expression_size(t: &[u8], e: &[u8]) -> Result<BoundExpression, Refusal>
    requires { Is table t.now × (Is expression e.now × NamesWithin e.now) }
    ensures { Sizes t.now e.now result }
{
    let root = image_expression::nodes(e) - 1;
    let m = mark(t, e, root)?;
    let mark = m.mark;
    Ok(BoundExpression {
        mark,
        len: run_len(m),
    })
}
