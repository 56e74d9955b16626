// Two operands of one kind, neither of them NULL. What has no rule is None.
ghost use Rattle.std.specs.Prelude.{◌≡◌, ◌≤◌, ◌<◌};
ghost use Rattle.image_expression.specs.Place.{bin_of};
ghost use Rattle.rules.specs.Bound.{Value};
ghost use Rattle.rules.specs.Evaluate.{binary_value};
ghost use Rattle.run_values.specs.Worths.{told, heard, value_of, text_size_of};

use crate::Worth;
use crate::orders::compared;

// 16 is +, 17 -, 18 *, 19 /, 20 %.
#[tactic(auto, unfolding(image_expression::specs::Place::bin_of, rules::specs::Evaluate::binary_value, rules::specs::Evaluate::operate, rules::specs::Evaluate::arithmetic))]
fn arithmetic(k: u8, m: i64, n: i64) -> Option<i64>
    requires { (16 ≤ k) × (k < 21) }
    ensures { heard Value.int result ≡ told (binary_value (bin_of k) (Value.int m) (Value.int n)) }
{
    match k {
        16 => text_arith::add(m, n),
        17 => text_arith::sub(m, n),
        18 => text_arith::mul(m, n),
        19 => text_arith::div(m, n),
        _ => text_arith::rem(m, n),
    }
}

// From 21 on the kinds are comparisons.
#[tactic(auto, using(crate::proofs::Compared::ints_ordered))]
pub fn ints<'a>(k: u8, m: i64, n: i64) -> Option<Worth<'a>>
    requires { (16 ≤ k) × (k < 29) }
    ensures value { heard value_of result ≡ told (binary_value (bin_of k) (Value.int m) (Value.int n)) }
    ensures plain { text_size_of result ≡ 0 }
{
    if k < 21 {
        return Some(Worth::Int(arithmetic(k, m, n)?));
    }
    Some(Worth::Bool(compared(k, m.cmp(&n))?))
}

// = and <>, AND and OR. Of two truth values none comes first.
#[tactic(auto, using(crate::proofs::Rules::same_bool_lem), unfolding(image_expression::specs::Place::bin_of, rules::specs::Evaluate::binary_value, rules::specs::Evaluate::operate, rules::specs::Evaluate::equal))]
pub fn bools(k: u8, m: bool, n: bool) -> Option<bool>
    requires { (16 ≤ k) × (k < 29) }
    ensures { heard Value.bool result ≡ told (binary_value (bin_of k) (Value.bool m) (Value.bool n)) }
{
    match k {
        21 => Some(m == n),
        22 => Some(m != n),
        27 => Some(m & n),
        28 => Some(m | n),
        _ => None,
    }
}

// TEXT is only compared.
#[tactic(auto, using(crate::proofs::Compared::texts_ordered, crate::proofs::Rules::texts_none))]
pub fn texts(k: u8, a: &[u8], b: &[u8]) -> Option<bool>
    requires { (16 ≤ k) × (k < 29) }
    ensures { heard Value.bool result ≡ told (binary_value (bin_of k) (Value.text a.now) (Value.text b.now)) }
{
    if k < 21 {
        return None;
    }
    compared(k, text_order::compare(a, b))
}
