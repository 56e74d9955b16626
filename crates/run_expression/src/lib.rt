// Works out an expression over a row: its value, or None where an operand is a fault or has no rule. The left operand comes first; the node's
// number falls on the way round, and the calls are as deep as the expression.
#![tactic(auto)]

mod leaves;

ghost use Rattle.std.specs.Prelude.{◌≡◌, ◌<◌, ◌≤◌};
ghost use Rattle.bytes_bundle.specs.Held.{Is};
ghost use Rattle.image_catalogue.specs.Layout.{table};
ghost use Rattle.image_expression.specs.Expression.{expression};
ghost use Rattle.image_expression.specs.Place.{node_at};
ghost use Rattle.bind_expression.specs.Marks.{NamesWithin};
ghost use Rattle.run_expression.specs.Works.{Workable, Works, ObeysTable, Comes};
ghost use Rattle.run_values.specs.Worths.{text_size_of};

use image_expression::{kind, span, text};
use leaves::{leaf, number, signs_number};
use run_values::{Worth, one_operand, two_operands};

// The value at node i, as docs/IMAGES.md numbers the kinds: 9 parentheses, 10 IS NULL, 11 IS NOT NULL, 12 to 15 one operand, from 16 on two.
#[cycle(evaluate_evaluate_binary_evaluate_unary)]
pub fn evaluate<'a>(t: &[u8], e: &'a [u8], i: usize, r: &'a [u8]) -> Option<Worth<'a>>
    requires { Workable t.now e.now i r.now }
    ensures works { Works t.now e.now i r.now result }
    ensures short { text_size_of result < 4294967295 }
{
    let k = kind(e, i);
    if k < 9 {
        return leaf(t, e, i, r, k);
    }
    if 16 <= k {
        return evaluate_binary(t, e, i, r, k);
    }
    // as inside
    if k == 9 {
        return evaluate(t, e, i - 1, r);
    }
    evaluate_unary(t, e, i, r, k)
}

// A sign, which makes one literal with a number directly below it; a test for NULL, NOT, or another operator.
#[cycle(evaluate_evaluate_binary_evaluate_unary)]
fn evaluate_unary<'a>(t: &[u8], e: &'a [u8], i: usize, r: &'a [u8], k: u8) -> Option<Worth<'a>>
    requires workable { Workable t.now e.now i r.now }
    requires k_value { (k ≡ (node_at e.now i).kind) × ((10 ≤ k) × (k < 16)) }
    ensures works { Works t.now e.now i r.now result }
    ensures short { text_size_of result < 4294967295 }
{
    let below = i - 1;
    if signs_number(e, below, k) {
        return number(text(e, below), k == 13);
    }
    one_operand(k, Some(evaluate(t, e, below, r)?))
}

#[cycle(evaluate_evaluate_binary_evaluate_unary)]
fn evaluate_binary<'a>(t: &[u8], e: &'a [u8], i: usize, r: &'a [u8], k: u8) -> Option<Worth<'a>>
    requires workable { Workable t.now e.now i r.now }
    requires k_value { (k ≡ (node_at e.now i).kind) × (16 ≤ k) }
    ensures works { Works t.now e.now i r.now result }
    ensures short { text_size_of result < 4294967295 }
{
    let right = i - 1;
    let left = right - span(e, right);
    let a = evaluate(t, e, left, r)?;
    let b = evaluate(t, e, right, r)?;
    two_operands(k, Some(a), Some(b))
}

// The value of a whole expression, whose root is its last node.
pub fn value<'a>(t: &[u8], e: &'a [u8], r: &'a [u8]) -> Option<Worth<'a>>
    requires { Is table t.now × ((Is expression e.now × NamesWithin e.now) × ObeysTable t.now r.now) }
    ensures comes { Comes t.now e.now r.now result }
    ensures short { text_size_of result < 4294967295 }
{
    evaluate(t, e, image_expression::nodes(e) - 1, r)
}
