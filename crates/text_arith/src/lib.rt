// Exact arithmetic on 64 signed bits: the result, or none exactly where it lies outside the range or the divisor is 0.
#![tactic(auto)]

ghost use Rattle.std.specs.Prelude.{◌≡◌};
ghost use Rattle.rules.specs.Numbers.{signed, sum, difference, product, quotient, remainder, negation};
ghost use Rattle.text_arith.specs.Exact.{told_exact, exact};

// The number of a sign and a size, if it is in the range.
pub fn made(minus: bool, size: u64) -> Option<i64>
    ensures { result ≡ exact (signed minus size) }
{
    if minus {
        return 0i64.checked_sub_unsigned(size);
    }
    i64::try_from(size).ok()
}

pub fn add(a: i64, b: i64) -> Option<i64>
    ensures { result ≡ told_exact (sum a b) }
{
    a.checked_add(b)
}

pub fn sub(a: i64, b: i64) -> Option<i64>
    ensures { result ≡ told_exact (difference a b) }
{
    a.checked_sub(b)
}

pub fn mul(a: i64, b: i64) -> Option<i64>
    ensures { result ≡ told_exact (product a b) }
{
    a.checked_mul(b)
}

// Cut toward zero.
pub fn div(a: i64, b: i64) -> Option<i64>
    ensures { result ≡ told_exact (quotient a b) }
{
    a.checked_div(b)
}

// With the dividend's sign. The least number by -1 leaves 0: `checked_rem` has no result there.
pub fn rem(a: i64, b: i64) -> Option<i64>
    ensures { result ≡ told_exact (remainder a b) }
{
    if b == 0 {
        return None;
    }
    Some(a.wrapping_rem(b))
}

pub fn neg(a: i64) -> Option<i64>
    ensures { result ≡ told_exact (negation a) }
{
    a.checked_neg()
}
