// One operand. NULL stays NULL; what has no rule is None.
ghost use Rattle.std.specs.Prelude.{◌≡◌};
ghost use Rattle.rules.specs.declared.BoundUnaryOperator.TheVariants.{Positive, Negative, Not};
ghost use Rattle.rules.specs.Evaluate.{is_null, unary_value};
ghost use Rattle.rules.specs.Statements.{unary};
ghost use Rattle.run_values.specs.Worths.{told, heard, value_of, text_size_of};

use crate::Worth;

pub fn is_null(w: Worth) -> bool
    ensures { result ≡ is_null (value_of w.entry) }
{
    matches!(w, Worth::Null)
}

#[tactic(auto, unfolding(rules::specs::Evaluate::unary_value))]
pub fn plus<'a>(w: Worth<'a>) -> Option<Worth<'a>>
    ensures value { heard value_of result ≡ told (unary_value (unary Positive) (value_of w.entry)) }
    ensures plain { text_size_of result ≡ 0 }
{
    match w {
        Worth::Null => Some(Worth::Null),
        Worth::Int(z) => Some(Worth::Int(z)),
        _ => None,
    }
}

#[tactic(auto, unfolding(rules::specs::Evaluate::unary_value))]
pub fn minus<'a>(w: Worth<'a>) -> Option<Worth<'a>>
    ensures value { heard value_of result ≡ told (unary_value (unary Negative) (value_of w.entry)) }
    ensures plain { text_size_of result ≡ 0 }
{
    match w {
        Worth::Null => Some(Worth::Null),
        Worth::Int(z) => Some(Worth::Int(text_arith::neg(z)?)),
        _ => None,
    }
}

#[tactic(auto, unfolding(rules::specs::Evaluate::unary_value))]
pub fn not<'a>(w: Worth<'a>) -> Option<Worth<'a>>
    ensures value { heard value_of result ≡ told (unary_value (unary Not) (value_of w.entry)) }
    ensures plain { text_size_of result ≡ 0 }
{
    match w {
        Worth::Null => Some(Worth::Null),
        Worth::Bool(b) => Some(Worth::Bool(!b)),
        _ => None,
    }
}
