// What several images hold: ids, type codes, values and columns. `specs/Parts.antt` has their layouts. A value is told and read here.
#![tactic(auto)]

ghost use Rattle.std.specs.Prelude.{◌≡◌, Bool, ℤ};
ghost use Rattle.bytes_bundle.specs.Bundle.{is_there};
ghost use Rattle.bytes_bundle.specs.Held.{Is, Holds, Shows};
ghost use Rattle.rules.specs.Bound.{Value, Value.int, Value.text, Value.bool};
ghost use Rattle.rules.specs.Lists.{Text};
ghost use Rattle.image_value.specs.Parts.{value};
ghost use Rattle.image_value.specs.Values.{type_code, is_int, is_text, is_bool};

// Whether bytes are a value: a type code, and behind it what has that type.
#[tactic(auto, using(crate::specs::Values::is_value_lem, crate::specs::Values::behind_code))]
pub fn is_value(s: &[u8]) -> bool
    ensures { result ≡ is_there (value.read s.now) }
{
    match s {
        [0, int @ ..] => int.len() == 8,
        [1, text @ ..] => bytes_utf8::is_utf8(text),
        [2, 0 | 1] => true,
        [3] => true,
        _ => false,
    }
}

// 0 INT, 1 TEXT, 2 BOOL, 3 NULL.
pub fn type_code(v: &[u8]) -> u8
    requires { Is value v.now }
    ensures { (x : Value) → Holds value v.now x → result ≡ type_code x }
{
    v[0]
}

pub fn int_of(v: &[u8]) -> i64
    requires { Shows value is_int v.now }
    ensures { (z : ℤ) → Holds value v.now (int z) → result ≡ z }
{
    bytes_wire::get(v, 1, 8).cast_signed()
}

// A part of the value: no byte is copied.
pub fn text_of(v: &[u8]) -> &[u8]
    requires { Shows value is_text v.now }
    ensures { (t : Text) → Holds value v.now (text t) → result.now ≡ t }
{
    &v[1..]
}

pub fn bool_of(v: &[u8]) -> bool
    requires { Shows value is_bool v.now }
    ensures { (b : Bool) → Holds value v.now (bool b) → result ≡ b }
{
    v[1] == 1
}
