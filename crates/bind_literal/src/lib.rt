// A value of a VALUES list: a literal, or a sign directly on a number.
#![tactic(auto)]

ghost use Rattle.std.specs.Prelude.{◌≡◌, ◌≤◌, ◌<◌, length};
ghost use Rattle.bytes_bundle.specs.Held.{Is, Holds};
ghost use Rattle.image_expression.specs.Expression.{expression};
ghost use Rattle.image_expression.specs.Place.{node_at, HasNode};
ghost use Rattle.rules.specs.Analyze as analyze;
ghost use Rattle.rules.specs.Lists.{Text};
ghost use Rattle.rules.specs.Numbers.{integer_literal};
ghost use Rattle.rules.specs.Statements.{Expr};
ghost use Rattle.bind_literal.specs.Scalars.{value_of, text_in, Tells};

use image_expression::{kind, nodes, text};
use rules::{Class, Refusal};
use text_numbers::integer_literal;

// A text lies in the expression's image: `text_of` lends it.
#[derive(Clone, Copy)]
pub enum Scalar {
    Int(i64),
    Text,
    Bool(bool),
    Null,
}

// A number, under a minus or not: its text must be one of 64 signed bits.
#[tactic(auto, using(crate::proofs::Laws::numbers))]
fn integer(s: &[u8], negative: bool) -> Result<Scalar, Refusal>
    ensures { (t : Text) → analyze.integer (integer_literal negative s.now) ≡ value_of t result }
{
    match integer_literal(s, negative) {
        Some(z) => Ok(Scalar::Int(z)),
        None => Err(Class::SchemaMismatch.into()),
    }
}

// A leaf by its kind: 2 a number, 3 a string, 4 TRUE, 5 FALSE, 6 NULL; names and other leaves are no literals.
#[tactic(auto, using(crate::proofs::Laws::leaves), unfolding(image_expression::specs::Place::leaf_of, rules::specs::Analyze::insert_leaf))]
fn leaf(e: &[u8], i: usize, k: u8) -> Result<Scalar, Refusal>
    requires { HasNode e.now i × ((k ≡ (node_at e.now i).kind) × (k < 9)) }
    ensures { Tells e.now i result }
{
    match k {
        2 => integer(text(e, i), false),
        3 => Ok(Scalar::Text),
        4 => Ok(Scalar::Bool(true)),
        5 => Ok(Scalar::Bool(false)),
        6 => Ok(Scalar::Null),
        _ => Err(Class::UnsupportedSql.into()),
    }
}

// One operand: 12 is +, 13 -, and directly below it a number.
#[tactic(auto, using(crate::proofs::Laws::signs))]
fn signed(e: &[u8], i: usize, k: u8) -> Result<Scalar, Refusal>
    requires { HasNode e.now i × ((k ≡ (node_at e.now i).kind) × ((9 ≤ k) × (k < 16))) }
    ensures { Tells e.now i result }
{
    if k < 12 {
        return Err(Class::UnsupportedSql.into());
    }
    if 14 <= k {
        return Err(Class::UnsupportedSql.into());
    }
    let below = i - 1;
    if kind(e, below) != 2 {
        return Err(Class::UnsupportedSql.into());
    }
    integer(text(e, below), k == 13)
}

#[tactic(auto, using(crate::proofs::Laws::wholes))]
pub fn insert_literal(e: &[u8]) -> Result<Scalar, Refusal>
    requires { Is expression e.now }
    ensures { (x : Expr) → Holds expression e.now x → analyze.insert_literal x ≡ value_of (text_in e.now) result }
{
    let last = nodes(e) - 1;
    let k = kind(e, last);
    if k < 9 {
        return leaf(e, last, k);
    }
    if 16 <= k {
        return Err(Class::UnsupportedSql.into());
    }
    signed(e, last, k)
}

// The text of a value that is a text.
#[tactic(auto, using(crate::proofs::Laws::wholes))]
pub fn text_of(e: &[u8]) -> &[u8]
    requires { Is expression e.now }
    ensures { (result.now ≡ text_in e.now) × (length result.now ≤ length e.now) }
{
    text(e, nodes(e) - 1)
}
