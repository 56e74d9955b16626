// Names as they are compared: quoted ones keep their bytes, unquoted ones fold A to Z.
#![tactic(auto)]

ghost use Rattle.std.specs.Prelude.{◌≡◌, map, ◌≤◌, length, take};
ghost use Rattle.rules.specs.Lists.{same};
ghost use Rattle.rules.specs.Names.{fold, canonical, beyond_ascii};
ghost use Rattle.text_names.specs.Compared.{named, compared_byte, agreeing};

// A byte of a name as it is compared: A to Z become a to z where it is not quoted. Other letters stay as they are: number 8 refuses unquoted names
// that have some.
fn compared_byte(quoted: bool, b: u8) -> u8
    ensures { result ≡ compared_byte quoted b }
{
    if quoted { b } else { b.to_ascii_lowercase() }
}

// Whether two texts agree, with the bytes of each taken as in a quoted name or as in an unquoted one. From the last byte back: names that stand
// side by side often begin alike.
fn agree(q1: bool, a: &[u8], q2: bool, b: &[u8]) -> bool
    ensures { result ≡ agreeing q1 q2 a.now b.now }
{
    a.len() == b.len()
        && (0..a.len())
            .rev()
            .all(|i| compared_byte(q1, a[i]) == compared_byte(q2, b[i]))
}

// Byte for byte.
// kept: `a == b` goes by groups from the front, and took longer where names differ in their last byte alone.
#[tactic(auto, using(crate::proofs::Laws::agree_quoted))]
pub fn same(a: &[u8], b: &[u8]) -> bool
    ensures { result ≡ same a.now b.now }
{
    agree(true, a, true, b)
}

// The same but for ASCII case.
pub fn same_but_case(a: &[u8], b: &[u8]) -> bool
    ensures { result ≡ same (map fold a.now) (map fold b.now) }
{
    a.eq_ignore_ascii_case(b)
}

// Number 8: an unquoted name with a byte of 128 or more.
#[tactic(auto, using(crate::proofs::Laws::some_beyond), unfolding(rules::specs::Names::beyond_ascii))]
pub fn beyond_ascii(quoted: bool, s: &[u8]) -> bool
    ensures { result ≡ beyond_ascii (named quoted s.now) }
{
    !quoted && !s.is_ascii()
}

// A name as it is compared, at the front of the room that the longest one takes.
pub fn compared(quoted: bool, name: &[u8]) -> [u8; 128]
    requires { length name.now ≤ 128 }
    ensures { take (length name.now) result ≡ canonical (named quoted name.now) }
{
    let mut room = [0u8; 128];
    let front = &mut room[..name.len()];
    front.copy_from_slice(name);
    if !quoted {
        front.make_ascii_lowercase();
    }
    room
}

// Whether a name of the statement is one of the catalogue, whose names are compared as they are.
#[tactic(auto, using(crate::proofs::Laws::agree_called))]
pub fn is_called(quoted: bool, name: &[u8], other: &[u8]) -> bool
    requires { length name.now ≤ 128 }
    ensures { result ≡ same (canonical (named quoted name.now)) other.now }
{
    agree(quoted, name, true, other)
}

// Whether two names of the statement are one.
#[tactic(auto, using(crate::proofs::Laws::agree_names))]
pub fn are_same_name(q1: bool, n1: &[u8], q2: bool, n2: &[u8]) -> bool
    requires { (length n1.now ≤ 128) × (length n2.now ≤ 128) }
    ensures { result ≡ same (canonical (named q1 n1.now)) (canonical (named q2 n2.now)) }
{
    agree(q1, n1, q2, n2)
}
