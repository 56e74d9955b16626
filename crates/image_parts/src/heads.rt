// What stands in front of something else, one byte, and marks alone: 0 for no, 1 for yes.
ghost use Rattle.std.specs.Prelude.{◌≡◌, [], ◌<◌, length, drop, get_or, eqb};
ghost use Rattle.bytes_bundle.specs.Bundle.{parts_of};
ghost use Rattle.bytes_bundle.specs.Heads.{are_marks};

// What follows the first byte.
pub fn behind(s: &[u8]) -> &[u8]
    requires { 0 < length s.now }
    ensures { result.now ≡ drop 1 s.now }
{
    &s[1..]
}

// Whether bytes are n marks and nothing else.
#[tactic(auto, using(bytes_bundle::specs::Heads::marks_short))]
pub fn are_marks(s: &[u8], n: usize) -> bool
    ensures { result ≡ are_marks n s.now }
{
    s.len() == n && s.iter().all(|mark| *mark < 2)
}

// Mark k of the marks that are a record's first part.
pub fn mark_in(s: &[u8], k: usize) -> bool
    requires { k < length (get_or (parts_of 2 s.now) 0 []) }
    ensures { result ≡ eqb (get_or (get_or (parts_of 2 s.now) 0 []) k 0) 1 }
{
    let marks = bytes_bundle::part(s, 2, 0);
    marks[k] == 1
}
