// Numbers as bytes, the lowest first, read from a slice and written into one; and bytes copied.
#![tactic(auto)]

ghost use Rattle.std.specs.Prelude.{◌≡◌, ◌+◌, ◌≤◌, length};
ghost use Rattle.bytes_wire.specs.Le.{le, Got};
ghost use Rattle.bytes_wire.specs.Sets.{Wrote};

// The number that k bytes from `at` on spell, the lowest first.
// kept: two bytes, as most counts have, have a case of their own, which LLVM reads with one load.
pub fn get(s: &[u8], at: usize, k: usize) -> u64
    requires { (k ≤ 8) × (at + k ≤ length s.now) }
    ensures { Got s.now at k result }
{
    match &s[at..at + k] {
        [low, high] => u16::from_le_bytes([*low, *high]).into(),
        bytes => bytes.iter().rev().fold(0, |v, b| (v << 8) | u64::from(*b)),
    }
}

// Writes the k bytes of v from `at` on, and answers the index behind them.
pub fn put(out: &mut [u8], at: usize, k: usize, v: u64) -> usize
    requires { at + k ≤ length out.old }
    ensures { Wrote out.old at (le k v) result out.new }
{
    let mut rest = v;
    for byte in &mut out[at..at + k] {
        *byte = (rest % 256) as u8;
        rest /= 256;
    }
    at + k
}

// Writes all of src from `at` on, and answers the index behind it.
// kept: `copy_from_slice` becomes a call of C's `memmove`, which the library would need from outside.
pub fn put_all(out: &mut [u8], at: usize, src: &[u8]) -> usize
    requires { at + length src.now ≤ length out.old }
    ensures { Wrote out.old at src.now result out.new }
{
    let end = at + src.len();
    for (i, byte) in out[at..end].iter_mut().enumerate() {
        *byte = src[i];
    }
    end
}
