// Nodes with operands, by their kinds and what their operands are bound to.
ghost use Rattle.std.specs.Prelude.{◌≡◌, ◌&&◌, ◌<◌, ◌≤◌, ltb, eqb};
ghost use Rattle.image_expression.specs.Place.{node_at, un_of, bin_of, HasNode};
ghost use Rattle.rules.specs.Marking.{unary_rule, binary_rule};
ghost use Rattle.rules.specs.Statements as statements;
ghost use Rattle.bind_expression.specs.Told.{null_told, over_one, over_two};
ghost use Rattle.bind_expression.specs.Small.{Small};

use crate::Measured;
use bind_operators::{result, unary};
use image_bound::nodes::NODE;
use image_expression::kind;
use rules::{BoundBinaryOperator, BoundUnaryOperator, Class, ExpressionType, Mark, Refusal};

// Whether an operator of kind k over node j is a sign directly over a number.
pub fn signs_number(e: &[u8], j: usize, k: u8) -> bool
    requires { HasNode e.now j }
    ensures { result ≡ (ltb k 14 && eqb (node_at e.now j).kind 2) }
{
    if 14 <= k {
        return false;
    }
    kind(e, j) == 2
}

pub fn null_test(m: Measured) -> Measured
    requires { Small m }
    ensures { Ok result ≡ null_told m }
{
    Measured {
        mark: Mark {
            ty: ExpressionType::Bool,
            nullable: false,
        },
        size: m.size + NODE,
    }
}

// 12 is +, 13 -, 14 NOT, 15 another operator.
#[tactic(auto, using(crate::proofs::Told::ruled_ok, crate::proofs::Told::ruled_err), unfolding(image_expression::specs::Place::un_of, rules::specs::Marking::unary_rule))]
pub fn one_operand(k: u8, m: Measured) -> Result<Measured, Refusal>
    requires { ((12 ≤ k) × (k < 16)) × Small m }
    ensures { result ≡ over_one (unary_rule (un_of k)) m }
{
    let operator = match k {
        12 => BoundUnaryOperator::Positive,
        13 => BoundUnaryOperator::Negative,
        14 => BoundUnaryOperator::Not,
        _ => return Err(Class::UnsupportedSql.into()),
    };
    let mark = unary(operator, m.mark)?;
    Ok(Measured {
        mark,
        size: m.size + NODE,
    })
}

fn operator(k: u8) -> BoundBinaryOperator
    requires { (16 ≤ k) × (k < 29) }
    ensures { statements.binary result ≡ bin_of k }
{
    match k {
        16 => BoundBinaryOperator::Add,
        17 => BoundBinaryOperator::Subtract,
        18 => BoundBinaryOperator::Multiply,
        19 => BoundBinaryOperator::Divide,
        20 => BoundBinaryOperator::Modulo,
        21 => BoundBinaryOperator::Equal,
        22 => BoundBinaryOperator::NotEqual,
        23 => BoundBinaryOperator::GreaterThan,
        24 => BoundBinaryOperator::GreaterThanOrEqual,
        25 => BoundBinaryOperator::LessThan,
        26 => BoundBinaryOperator::LessThanOrEqual,
        27 => BoundBinaryOperator::And,
        _ => BoundBinaryOperator::Or,
    }
}

// 29 is an operator that is none of the 13.
#[tactic(auto, using(crate::proofs::Told::typed_told, crate::proofs::Told::flaw_told), unfolding(image_expression::specs::Place::bin_of, rules::specs::Marking::binary_rule))]
pub fn two_operands(k: u8, a: Measured, b: Measured) -> Result<Measured, Refusal>
    requires { ((16 ≤ k) × (k < 30)) × (Small a × Small b) }
    ensures { result ≡ over_two (binary_rule (bin_of k)) a b }
{
    if k == 29 {
        return Err(Class::UnsupportedSql.into());
    }
    let left = a.mark;
    let right = b.mark;
    let size = a.size + b.size + NODE;
    let ty = result(operator(k), left.ty, right.ty)?;
    // the value may be null if either operand may
    Ok(Measured {
        mark: Mark {
            ty,
            nullable: left.nullable || right.nullable,
        },
        size,
    })
}
