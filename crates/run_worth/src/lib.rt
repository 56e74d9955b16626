// What working out comes to, as a value of a row's image: how long it is, and its bytes.
#![tactic(auto)]

ghost use Rattle.std.specs.Prelude.{◌≡◌, ◌+◌, ◌≤◌, ◌<◌, length};
ghost use Rattle.bytes_wire.specs.Sets.{Wrote};
ghost use Rattle.image_value.specs.Parts.{value};
ghost use Rattle.rules.specs.Evaluate.{is_true};
ghost use Rattle.run_values.specs.Worths.{value_of, text_size};

use image_bound::values::{bool_len, int_len, null_len, put_bool, put_int, put_null, put_text};
use run_values::Worth;

// Whether a condition that was worked out is TRUE.
pub fn is_true(w: Worth) -> bool
    ensures { result ≡ is_true (value_of w.entry) }
{
    matches!(w, Worth::Bool(true))
}

// How long the image of a value is. The lengths of a row's values have 4 bytes, so no sum of theirs wraps.
#[tactic(auto, using(image_bound::specs::Spelt::text_length))]
pub fn worth_len(w: Worth) -> usize
    ensures bounded { text_size w.entry < 4294967295 → result ≤ 4294967296 }
    ensures exact { result ≡ length (value.write (value_of w.entry)) }
{
    match w {
        Worth::Null => null_len(),
        Worth::Int(_) => int_len(),
        Worth::Bool(_) => bool_len(),
        Worth::Text(s) => 1 + s.len(),
    }
}

#[tactic(auto, using(image_bound::specs::Spelt::null_length, image_bound::specs::Spelt::int_length, image_bound::specs::Spelt::bool_length, image_bound::specs::Spelt::text_length))]
pub fn put_worth(out: &mut [u8], at: usize, w: Worth) -> usize
    requires { at + length (value.write (value_of w)) ≤ length out.old }
    ensures { Wrote out.old at (value.write (value_of w.entry)) result out.new }
{
    match w {
        Worth::Null => put_null(out, at),
        Worth::Int(z) => put_int(out, at, z),
        Worth::Bool(b) => put_bool(out, at, b),
        Worth::Text(s) => put_text(out, at, s),
    }
}
