// Number text of any length against the range of 64 signed bits, with no wider integers: past the range of a u64 the size stays at its greatest.
#![tactic(auto)]

ghost use Rattle.std.specs.Prelude.{◌≡◌};
ghost use Rattle.rules.specs.Numbers.{integer_literal};
ghost use Rattle.text_numbers.specs.Literal.{told, digits_literal};

// The number of one or more digits below a sign.
#[tactic(auto, using(crate::proofs::Laws::digit_laws))]
fn digits_literal(digits: &[u8], minus: bool) -> Option<i64>
    ensures { result ≡ told (digits_literal minus digits.now) }
{
    if digits.is_empty() {
        return None;
    }
    let mut size = 0u64;
    for digit in digits {
        if !digit.is_ascii_digit() {
            return None;
        }
        // What leaves a u64 leaves the range at either sign, whatever digits follow: any size there will do.
        size = size
            .saturating_mul(10)
            .saturating_add(u64::from(*digit - b'0'));
    }
    text_arith::made(minus, size)
}

// The literal of a number text, under a unary minus or not. The text may have a sign of its own.
#[tactic(auto, using(crate::proofs::Laws::sign_laws))]
pub fn integer_literal(s: &[u8], negative: bool) -> Option<i64>
    ensures { result ≡ told (integer_literal negative s.now) }
{
    match s {
        [b'+', digits @ ..] => digits_literal(digits, negative),
        [b'-', digits @ ..] => digits_literal(digits, !negative),
        _ => digits_literal(s, negative),
    }
}
