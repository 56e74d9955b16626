// A value: its type code, and what follows it.
ghost use Rattle.std.specs.Prelude.{◌≡◌, Bool, List, ℕ, ◌+◌, ◌≤◌, length, ℤ};
ghost use Rattle.bytes_wire.specs.Sets.{Wrote};
ghost use Rattle.image_value.specs.Parts.{value};
ghost use Rattle.rules.specs.Bound.{Value.int, Value.text, Value.bool, Value.null};

use crate::fields::{put_byte, put_mark};

pub fn put_int(out: &mut [u8], at: usize, z: i64) -> usize
    requires { at + 9 ≤ length out.old }
    ensures { Wrote out.old at (value.write (int z)) result out.new }
{
    let a = put_byte(out, at, 0);
    bytes_wire::put(out, a, 8, z.cast_unsigned())
}

pub fn put_text(out: &mut [u8], at: usize, s: &[u8]) -> usize
    requires { at + (1 + length s.now) ≤ length out.old }
    ensures { Wrote out.old at (value.write (text s.now)) result out.new }
{
    let a = put_byte(out, at, 1);
    bytes_wire::put_all(out, a, s)
}

pub fn put_bool(out: &mut [u8], at: usize, b: bool) -> usize
    requires { at + 2 ≤ length out.old }
    ensures { Wrote out.old at (value.write (bool b)) result out.new }
{
    let a = put_byte(out, at, 2);
    put_mark(out, a, b)
}

pub fn put_null(out: &mut [u8], at: usize) -> usize
    requires { at + 1 ≤ length out.old }
    ensures { Wrote out.old at (value.write null) result out.new }
{
    put_byte(out, at, 3)
}

// ---- lengths

pub fn int_len() -> usize
    ensures { (result ≡ 9) × ((z : ℤ) → result ≡ length (value.write (int z))) }
{
    9
}

// No text is longer than an image may be, so the sum does not wrap.
pub fn text_len(n: usize) -> usize
    requires { n ≤ 65536 }
    ensures { (result ≡ 1 + n) × ((s : List ℕ) → length s ≡ n → result ≡ length (value.write (text s))) }
{
    1 + n
}

pub fn bool_len() -> usize
    ensures { (result ≡ 2) × ((b : Bool) → result ≡ length (value.write (bool b))) }
{
    2
}

pub fn null_len() -> usize
    ensures { (result ≡ 1) × (result ≡ length (value.write null)) }
{
    1
}
