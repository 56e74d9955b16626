// What working out an expression comes to, and what the operators make of one or two of them. What is a fault, and what has no rule, comes to
// None.
#![tactic(auto)]

mod orders;
mod pairs;
mod singles;

ghost use Rattle.std.specs.Prelude.{◌≡◌, ◌≤◌, ◌<◌};
ghost use Rattle.image_expression.specs.Place.{un_of, bin_of};
ghost use Rattle.rules.specs.Evaluate.{unary_value, binary_value};
ghost use Rattle.run_values.specs.Worths.{told, heard, value_of, text_size_of, over_one, over_two};

// A text is a part of the row or of the statement: no byte of it is copied.
#[derive(Clone, Copy)]
pub enum Worth<'a> {
    Null,
    Int(i64),
    Bool(bool),
    Text(&'a [u8]),
}

// What a node with one operand makes of its value, by kind k: 10 IS NULL, 11 IS NOT NULL, 12 +, 13 -, 14 NOT, 15 another operator.
#[tactic(auto, unfolding(image_expression::specs::Place::un_of, rules::specs::Evaluate::unary_value))]
fn one_value<'a>(k: u8, w: Worth<'a>) -> Option<Worth<'a>>
    requires { (10 ≤ k) × (k < 16) }
    ensures value { heard value_of result ≡ told (unary_value (un_of k) (value_of w.entry)) }
    ensures plain { text_size_of result ≡ 0 }
{
    match k {
        10 => Some(Worth::Bool(singles::is_null(w))),
        11 => Some(Worth::Bool(!singles::is_null(w))),
        12 => singles::plus(w),
        13 => singles::minus(w),
        14 => singles::not(w),
        _ => None,
    }
}

// A node with one operand. A fault stays one.
#[inline(always)]
pub fn one_operand<'a>(k: u8, w: Option<Worth<'a>>) -> Option<Worth<'a>>
    requires { (10 ≤ k) × (k < 16) }
    ensures value { heard value_of result ≡ over_one (un_of k) (heard value_of w.entry) }
    ensures plain { text_size_of result ≡ 0 }
{
    one_value(k, w?)
}

// What a node with two operands makes of their values, by kind k: 16 to 28 the operators, 29 another one. NULL in either gives NULL.
#[tactic(auto, unfolding(image_expression::specs::Place::bin_of, rules::specs::Evaluate::binary_value))]
fn two_values<'a>(k: u8, a: Worth<'a>, b: Worth<'a>) -> Option<Worth<'a>>
    requires { (16 ≤ k) × (k < 30) }
    ensures value { heard value_of result
        ≡ told (binary_value (bin_of k) (value_of a.entry) (value_of b.entry)) }
    ensures plain { text_size_of result ≡ 0 }
{
    if k == 29 {
        return None;
    }
    match (a, b) {
        (Worth::Null, _) => Some(Worth::Null),
        (_, Worth::Null) => Some(Worth::Null),
        (Worth::Int(m), Worth::Int(n)) => pairs::ints(k, m, n),
        (Worth::Bool(m), Worth::Bool(n)) => Some(Worth::Bool(pairs::bools(k, m, n)?)),
        (Worth::Text(s), Worth::Text(t)) => Some(Worth::Bool(pairs::texts(k, s, t)?)),
        // operands of two kinds have no rule
        _ => None,
    }
}

// A node with two operands. A fault in either is the whole's, beside NULL too.
#[inline(always)]
pub fn two_operands<'a>(k: u8, a: Option<Worth<'a>>, b: Option<Worth<'a>>) -> Option<Worth<'a>>
    requires { (16 ≤ k) × (k < 30) }
    ensures value { heard value_of result
        ≡ over_two (bin_of k) (heard value_of a.entry) (heard value_of b.entry) }
    ensures plain { text_size_of result ≡ 0 }
{
    two_values(k, a?, b?)
}
