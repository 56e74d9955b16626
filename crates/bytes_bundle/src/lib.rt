// The one reader of the one container: how many parts, the length of each, the parts (docs/IMAGES.md, "A bundle"). Counts have w bytes.
// A list is gone over by `iter`, which lends each part. The search of bind_repeats alone carries the number of a part and the byte where it begins.
#![tactic(auto)]

ghost use Rattle.std.specs.Prelude.{◌≡◌, [], ◌≤◌, ◌<◌, length, get_or};
ghost use Rattle.bytes_format.proofs.Formats.{pieces};
ghost use Rattle.bytes_bundle.specs.Bundle.{is_there, parts_of, IsBundle, is_record, PartAt, Stepped};
ghost use Rattle.bytes_bundle.specs.Left.{parts_left};

mod parts_iter;

pub use parts_iter::Parts;

// Whether the lengths in the contents add up to the bytes behind them.
pub fn is_bundle(s: &[u8], w: usize) -> bool
    requires { w ≤ 4 }
    ensures { result ≡ is_there ((pieces w).read s.now) }
{
    if s.len() < w {
        return false;
    }
    let n = bytes_wire::get(s, 0, w) as usize;
    let head = w + n * w;
    if s.len() < head {
        return false;
    }
    let mut left = n;
    let mut to = w;
    let mut at = head;
    while 0 < left {
        let k = bytes_wire::get(s, to, w) as usize;
        // no sum of lengths that passes the end is ever made
        if s.len() - at < k {
            return false;
        }
        at += k;
        to += w;
        left -= 1;
    }
    at == s.len()
}

// How many parts there are.
pub fn parts(s: &[u8], w: usize) -> usize
    requires { (w ≤ 4) × IsBundle w s.now }
    ensures { result ≡ length (parts_of w s.now) }
{
    bytes_wire::get(s, 0, w) as usize
}

// Whether the bytes are a bundle of n parts, as a record of n parts is.
pub fn is_record(s: &[u8], w: usize, n: usize) -> bool
    requires { w ≤ 4 }
    ensures { result ≡ is_record w n s.now }
{
    if !is_bundle(s, w) {
        return false;
    }
    parts(s, w) == n
}

// Where the first part begins: behind the contents.
pub fn first(s: &[u8], w: usize) -> usize
    requires { (w ≤ 4) × IsBundle w s.now }
    ensures { PartAt w s.now 0 result }
{
    let n = bytes_wire::get(s, 0, w) as usize;
    w + n * w
}

// Where part i, which begins at `at`, ends and the next one begins.
pub fn next(s: &[u8], w: usize, i: usize, at: usize) -> usize
    requires { (w ≤ 4) × IsBundle w s.now × PartAt w s.now i at × (i < length (parts_of w s.now)) }
    ensures { Stepped w s.now i at result }
{
    let k = bytes_wire::get(s, w + i * w, w) as usize;
    at + k
}

// The parts in their order, each lent as it stands in s.
pub fn iter(s: &[u8], w: usize) -> Parts<'_>
    requires { (w ≤ 4) × IsBundle w s.now }
    ensures { parts_left result ≡ parts_of w s.now }
{
    let left = parts(s, w);
    let (_, behind) = s.split_at(w);
    let (lengths, bytes) = behind.split_at(left * w);
    Parts {
        lengths,
        bytes,
        left,
        w,
    }
}

// Part k, for a record: its parts are few, so that the way to one is short.
pub fn part(s: &[u8], w: usize, k: usize) -> &[u8]
    requires { (w ≤ 4) × IsBundle w s.now × (k < length (parts_of w s.now)) }
    ensures { result.now ≡ get_or (parts_of w s.now) k [] }
{
    let mut i = 0;
    let mut at = first(s, w);
    while i < k {
        at = next(s, w, i, at);
        i += 1;
    }
    let end = next(s, w, i, at);
    &s[at..end]
}
