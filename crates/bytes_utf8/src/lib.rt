// Whether bytes are UTF-8 (RFC 3629).
#![tactic(auto)]

ghost use Rattle.std.specs.Prelude.{◌≡◌, ◌<◌, ◌≤◌, false, length, MatchBool, MatchOption};
ghost use Rattle.bytes_utf8.specs.Utf8.{Two, Three, Four};
ghost use Rattle.bytes_utf8.specs.Decide.{is_utf8};
ghost use Rattle.bytes_utf8.specs.Chars.{ascii};

// Whether a block is of ASCII. Its bits are gathered first, for one test in place of N.
fn is_ascii_block<const N: usize>(block: &[u8; N]) -> bool
    ensures { result ≡ ascii N block.now }
{
    let bits = block.iter().fold(0, |bits, b| bits | *b);
    bits < 0x80
}

// What stands behind the blocks of ASCII at the front.
fn behind_blocks<const N: usize>(s: &[u8]) -> &[u8]
    requires { (0 < N) × (N ≤ 128) }
    ensures same { is_utf8 result.now ≡ is_utf8 s.now }
    ensures within { length result.now ≤ length s.now }
{
    let mut rest = s;
    while let Some((block, behind)) = rest.split_first_chunk::<N>()
        && is_ascii_block(block)
    {
        rest = behind;
    }
    rest
}

// What stands behind all the ASCII at the front: large blocks, small ones, and what is less than a small one.
fn behind_ascii(s: &[u8]) -> &[u8]
    ensures same { is_utf8 result.now ≡ is_utf8 s.now }
    ensures within { length result.now ≤ length s.now }
{
    let mut rest = behind_blocks::<8>(behind_blocks::<128>(s));
    while let [a, behind @ ..] = rest
        && a.is_ascii()
    {
        rest = behind;
    }
    rest
}

// The same, told by the first byte where it is not of ASCII: for a lone byte of ASCII among wider characters a look at many is not worth it.
fn behind_more_ascii(s: &[u8]) -> &[u8]
    ensures same { is_utf8 result.now ≡ is_utf8 s.now }
    ensures within { length result.now ≤ length s.now }
{
    match s {
        [a, rest @ ..] if a.is_ascii() => behind_ascii(rest),
        _ => s,
    }
}

// Whether so many bytes are a character of the grammar, an arm for each alternative.

fn two(a: u8, b: u8) -> bool
    ensures { MatchBool result (Two a b) (¬ (Two a b)) }
{
    matches!((a, b), (0xc2..=0xdf, 0x80..=0xbf))
}

fn three(a: u8, b: u8, c: u8) -> bool
    ensures { MatchBool result (Three a b c) (¬ (Three a b c)) }
{
    match (a, b, c) {
        (0xe0, 0xa0..=0xbf, 0x80..=0xbf) => true,
        (0xe1..=0xec, 0x80..=0xbf, 0x80..=0xbf) => true,
        (0xed, 0x80..=0x9f, 0x80..=0xbf) => true,
        (0xee..=0xef, 0x80..=0xbf, 0x80..=0xbf) => true,
        _ => false,
    }
}

fn four(a: u8, b: u8, c: u8, d: u8) -> bool
    ensures { MatchBool result (Four a b c d) (¬ (Four a b c d)) }
{
    match (a, b, c, d) {
        (0xf0, 0x90..=0xbf, 0x80..=0xbf, 0x80..=0xbf) => true,
        (0xf1..=0xf3, 0x80..=0xbf, 0x80..=0xbf, 0x80..=0xbf) => true,
        (0xf4, 0x80..=0x8f, 0x80..=0xbf, 0x80..=0xbf) => true,
        _ => false,
    }
}

// What stands behind the character at the front, and behind the ASCII that follows one of ASCII; None where no character stands there. The first
// byte tells how many the character has.
#[tactic(auto, using(crate::proofs::Behind::cut_in_two, crate::proofs::Behind::cut_in_three, crate::proofs::Behind::cut_in_four))]
fn behind_char(s: &[u8]) -> Option<&[u8]>
    requires { 0 < length s.now }
    ensures { MatchOption result (is_utf8 s.now ≡ false)
        (λ r. (is_utf8 r.now ≡ is_utf8 s.now) × (length r.now < length s.now)) }
{
    match s {
        [a, rest @ ..] if a.is_ascii() => Some(behind_more_ascii(rest)),
        [a, b, rest @ ..] if *a < 0xe0 => two(*a, *b).then_some(rest),
        [a, b, c, rest @ ..] if *a < 0xf0 => three(*a, *b, *c).then_some(rest),
        [a, b, c, d, rest @ ..] => four(*a, *b, *c, *d).then_some(rest),
        _ => None,
    }
}

// Most texts are short and of ASCII: for them the first pass tells all. `is_utf8` is the grammar of RFC 3629 as a test: specs/Decide.antt shows
// that it agrees with specs/Utf8.antt.
pub fn is_utf8(s: &[u8]) -> bool
    ensures { result ≡ is_utf8 s.now }
{
    let mut rest = behind_ascii(s);
    while !rest.is_empty() {
        match behind_char(rest) {
            Some(behind) => rest = behind,
            None => return false,
        }
    }
    true
}
