// Nodes with operands: their marks, and a node's row behind those of its operands.
ghost use Rattle.std.specs.Prelude.{◌≡◌, ◌+◌, ◌*◌, ◌<◌, ◌≤◌, length};
ghost use Rattle.image_expression.specs.Place.{node_at, un_of, bin_of, HasNode};
ghost use Rattle.rules.specs.Answers.{fine};
ghost use Rattle.rules.specs.Marking.{unary_rule, binary_rule};
ghost use Rattle.rules.specs.Statements as statements;
ghost use Rattle.write_expression.specs.Signs.{signs};
ghost use Rattle.write_expression.specs.Rows.{Rooted};
ghost use Rattle.write_expression.specs.Fine.{IsFine, result_type};

use crate::Bound;
use bind_operators::unary;
use image_bound::nodes::{NODE, put_node};
use image_expression::kind;
use rules::{BoundBinaryOperator, BoundUnaryOperator, ExpressionType, Mark};

// Whether an operator of kind k over node j is a sign directly over a number.
pub fn signs_number(e: &[u8], j: usize, k: u8) -> bool
    requires { HasNode e.now j }
    ensures { result ≡ signs k (node_at e.now j) }
{
    if 14 <= k {
        return false;
    }
    kind(e, j) == 2
}

// 12 is +, 13 -, 14 NOT.
#[tactic(auto, unfolding(image_expression::specs::Place::un_of))]
fn unary_operator(k: u8) -> BoundUnaryOperator
    requires { (12 ≤ k) × (k < 15) }
    ensures { statements.unary result ≡ un_of k }
{
    match k {
        12 => BoundUnaryOperator::Positive,
        13 => BoundUnaryOperator::Negative,
        _ => BoundUnaryOperator::Not,
    }
}

// The mark of the node: its rule is kept.
#[tactic(auto, using(crate::specs::Fine::granted, crate::specs::Fine::granted_fine))]
pub fn one_operand(k: u8, m: Mark) -> Mark
    requires { ((12 ≤ k) × (k < 16)) × IsFine (unary_rule (un_of k) m) }
    ensures { unary_rule (un_of k) m ≡ fine result }
{
    unary(unary_operator(k), m).unwrap()
}

fn operator(k: u8) -> BoundBinaryOperator
    requires { (16 ≤ k) × (k < 29) }
    ensures { statements.binary result ≡ bin_of k }
{
    match k {
        16 => BoundBinaryOperator::Add,
        17 => BoundBinaryOperator::Subtract,
        18 => BoundBinaryOperator::Multiply,
        19 => BoundBinaryOperator::Divide,
        20 => BoundBinaryOperator::Modulo,
        21 => BoundBinaryOperator::Equal,
        22 => BoundBinaryOperator::NotEqual,
        23 => BoundBinaryOperator::GreaterThan,
        24 => BoundBinaryOperator::GreaterThanOrEqual,
        25 => BoundBinaryOperator::LessThan,
        26 => BoundBinaryOperator::LessThanOrEqual,
        27 => BoundBinaryOperator::And,
        _ => BoundBinaryOperator::Or,
    }
}

// What an operator gives wherever its rule is kept: the table need not be asked again.
fn result_type(o: BoundBinaryOperator) -> ExpressionType
    ensures { result ≡ result_type o }
{
    match o {
        BoundBinaryOperator::Add => ExpressionType::Int,
        BoundBinaryOperator::Subtract => ExpressionType::Int,
        BoundBinaryOperator::Multiply => ExpressionType::Int,
        BoundBinaryOperator::Divide => ExpressionType::Int,
        BoundBinaryOperator::Modulo => ExpressionType::Int,
        BoundBinaryOperator::Equal => ExpressionType::Bool,
        BoundBinaryOperator::NotEqual => ExpressionType::Bool,
        BoundBinaryOperator::GreaterThan => ExpressionType::Bool,
        BoundBinaryOperator::GreaterThanOrEqual => ExpressionType::Bool,
        BoundBinaryOperator::LessThan => ExpressionType::Bool,
        BoundBinaryOperator::LessThanOrEqual => ExpressionType::Bool,
        BoundBinaryOperator::And => ExpressionType::Bool,
        BoundBinaryOperator::Or => ExpressionType::Bool,
    }
}

pub fn two_operands(k: u8, a: Mark, b: Mark) -> Mark
    requires { ((16 ≤ k) × (k < 30)) × IsFine (binary_rule (bin_of k) a b) }
    ensures { binary_rule (bin_of k) a b ≡ fine result }
{
    let ty = result_type(operator(k));
    Mark {
        ty,
        nullable: a.nullable || b.nullable,
    }
}

// The row of a node that has `nodes` nodes below it, whose contents have `content` bytes.
pub fn put_root(
    out: &mut [u8],
    row: usize,
    kind: u8,
    mark: Mark,
    nodes: usize,
    from: usize,
    content: usize,
) -> Bound
    requires { (row + 11 * (nodes + 1) ≤ length out.old) × (from + content ≤ length out.old) }
    ensures { Rooted kind mark nodes from content out.old row result out.new }
{
    put_node(
        out,
        row + NODE * nodes,
        kind,
        mark,
        nodes + 1,
        from + content,
    );
    Bound {
        mark,
        nodes: nodes + 1,
        content,
    }
}
