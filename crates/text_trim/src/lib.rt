// White space at both ends of UTF-8 text, by a table of ranges of code points, and the statement that the text alone tells. What is
// left of a text is a part of the text that was lent.
#![tactic(auto)]

ghost use Rattle.std.specs.Prelude.{◌≡◌, ◌<◌, true, MatchOption};
ghost use Rattle.rules.specs.Trimmed.{white, white1, white2, white3, front_width, back_width, cut_front, cut_back, trimmed_front, trimmed_back, trimmed};
ghost use Rattle.rules.specs.Trimmed.{without_semicolon, dispatched, is_show_transactions};
ghost use Rattle.text_trim.specs.Plain.{Plain};

// From a code point to a code point.
#[derive(Clone, Copy)]
struct Range(u32, u32);

// White_Space.
const RANGES: [Range; 10] = [
    Range(0x9, 0xD),
    Range(0x20, 0x20),
    Range(0x85, 0x85),
    Range(0xA0, 0xA0),
    Range(0x1680, 0x1680),
    Range(0x2000, 0x200A),
    Range(0x2028, 0x2029),
    Range(0x202F, 0x202F),
    Range(0x205F, 0x205F),
    Range(0x3000, 0x3000),
];

// Whether a code point is white space.
#[tactic(auto, unfolding(rules::specs::Trimmed::within))]
fn is_white(c: u32) -> bool
    ensures { result ≡ white c }
{
    RANGES.iter().any(|r| r.0 <= c && c <= r.1)
}

// Whether one, two or three bytes are a code point that is white space.
#[tactic(auto, unfolding(rules::specs::Trimmed::white1))]
fn one(a: u8) -> bool
    ensures { result ≡ white1 a }
{
    a.is_ascii() && is_white(u32::from(a))
}

#[tactic(auto, unfolding(rules::specs::Trimmed::white2))]
fn two(a: u8, b: u8) -> bool
    ensures { result ≡ white2 a b }
{
    match (a, b) {
        (0xC0..=0xDF, 0x80..=0xBF) => {
            is_white((u32::from(a) - 0xC0) * 64 + (u32::from(b) - 0x80))
        }
        _ => false,
    }
}

#[tactic(auto, unfolding(rules::specs::Trimmed::white3))]
fn three(a: u8, b: u8, c: u8) -> bool
    ensures { result ≡ white3 a b c }
{
    match (a, b, c) {
        (0xE0..=0xEF, 0x80..=0xBF, 0x80..=0xBF) => is_white(
            (u32::from(a) - 0xE0) * 4096 + (u32::from(b) - 0x80) * 64 + (u32::from(c) - 0x80),
        ),
        _ => false,
    }
}

// ASCII past the space: at an end of a text it alone tells that no white space is there.
fn is_plain(b: u8) -> bool
    ensures { result ≡ true → Plain b }
{
    matches!(b, 33..=127)
}

// What stands behind the white space at the front of a text, if there is some.
#[tactic(auto, using(crate::proofs::Laws::plain_front), unfolding(rules::specs::Trimmed::width))]
fn past_front(s: &[u8]) -> Option<&[u8]>
    ensures { MatchOption result (front_width s.now ≡ 0) (λ t. (0 < front_width s.now) × (t.now ≡ cut_front s.now)) }
{
    match s {
        [a, ..] if is_plain(*a) => None,
        [a, rest @ ..] if one(*a) => Some(rest),
        [a, b, rest @ ..] if two(*a, *b) => Some(rest),
        [a, b, c, rest @ ..] if three(*a, *b, *c) => Some(rest),
        _ => None,
    }
}

// What stands before the white space at the back of a text, if there is some.
#[tactic(auto, using(crate::proofs::Laws::plain_back), unfolding(rules::specs::Trimmed::width))]
fn past_back(s: &[u8]) -> Option<&[u8]>
    ensures { MatchOption result (back_width s.now ≡ 0) (λ t. (0 < back_width s.now) × (t.now ≡ cut_back s.now)) }
{
    match s {
        [.., c] if is_plain(*c) => None,
        [rest @ .., c] if one(*c) => Some(rest),
        [rest @ .., b, c] if two(*b, *c) => Some(rest),
        [rest @ .., a, b, c] if three(*a, *b, *c) => Some(rest),
        _ => None,
    }
}

#[tactic(auto, using(crate::proofs::Laws::front_laws))]
pub fn trim_front(s: &[u8]) -> &[u8]
    ensures { result.now ≡ trimmed_front s.now }
{
    let mut left = s;
    while let Some(rest) = past_front(left) {
        left = rest;
    }
    left
}

#[tactic(auto, using(crate::proofs::Laws::back_laws))]
pub fn trim_back(s: &[u8]) -> &[u8]
    ensures { result.now ≡ trimmed_back s.now }
{
    let mut left = s;
    while let Some(rest) = past_back(left) {
        left = rest;
    }
    left
}

pub fn trim(s: &[u8]) -> &[u8]
    ensures { result.now ≡ trimmed s.now }
{
    trim_back(trim_front(s))
}

// One final `;` is dropped, if it is there.
#[tactic(auto, unfolding(rules::specs::Trimmed::without_semicolon))]
pub fn without_semicolon(s: &[u8]) -> &[u8]
    ensures { result.now ≡ without_semicolon s.now }
{
    match s {
        [rest @ .., b';'] => rest,
        _ => s,
    }
}

// The text that a statement is dispatched by.
#[tactic(auto, unfolding(rules::specs::Trimmed::dispatched))]
pub fn dispatched(s: &[u8]) -> &[u8]
    ensures { result.now ≡ dispatched s.now }
{
    trim(without_semicolon(trim(s)))
}

#[tactic(auto, unfolding(rules::specs::Trimmed::is_show_transactions))]
pub fn is_show_transactions(raw: &[u8]) -> bool
    ensures { result ≡ is_show_transactions raw.now }
{
    text_names::same_but_case(dispatched(raw), b"SHOW TRANSACTIONS")
}
