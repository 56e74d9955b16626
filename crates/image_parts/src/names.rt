// Names, and what may stand in a name's place.
ghost use Rattle.std.specs.Prelude.{◌≡◌};
ghost use Rattle.bytes_format.proofs.Formats.{list_of};
ghost use Rattle.bytes_bundle.specs.Bundle.{is_there};
ghost use Rattle.image_parts.specs.Layout.{name, object_name};
ghost use Rattle.rules.specs.Statements.{Name, ObjectName, plain};
ghost use Rattle.bytes_bundle.specs.Held.{Is, Holds};
ghost use Rattle.image_parts.specs.NamesHeld.{object_name_no};

use crate::heads::behind;

// A mark, whether the name is quoted, and the name's text.
#[tactic(auto, using(crate::specs::Shapes::is_name_lem, bytes_bundle::specs::Heads::rest_lem))]
pub fn is_name(s: &[u8]) -> bool
    ensures { result ≡ is_there (name.read s.now) }
{
    matches!(s, [mark, text @ ..] if *mark < 2 && bytes_utf8::is_utf8(text))
}

// Code 0: several parts, which are not held. Code 1: a name.
#[tactic(auto, using(crate::specs::Shapes::is_object_name_lem, bytes_bundle::specs::Heads::rest_lem))]
pub fn is_object_name(s: &[u8]) -> bool
    ensures { result ≡ is_there (object_name.read s.now) }
{
    match s {
        [0] => true,
        [1, name @ ..] => is_name(name),
        _ => false,
    }
}

pub fn are_names(s: &[u8]) -> bool
    ensures { result ≡ is_there ((list_of 2 name).read s.now) }
{
    bytes_bundle::is_bundle(s, 2) && bytes_bundle::iter(s, 2).all(is_name)
}

// ---- what a name holds

pub fn name_is_quoted(n: &[u8]) -> bool
    requires { Is name n.now }
    ensures { (v : Name) → Holds name n.now v → result ≡ v.quoted }
{
    n[0] == 1
}

// Without its quotes.
pub fn name_text(n: &[u8]) -> &[u8]
    requires { Is name n.now }
    ensures { (v : Name) → Holds name n.now v → result.now ≡ v.text }
{
    behind(n)
}

// 0: several parts. 1: one part.
pub fn object_name_code(o: &[u8]) -> u8
    requires { Is object_name o.now }
    ensures { (v : ObjectName) → Holds object_name o.now v → result ≡ object_name_no v }
{
    o[0]
}

// The one part.
pub fn only_name(o: &[u8]) -> &[u8]
    requires { Is object_name o.now }
    ensures { (n : Name) → Holds object_name o.now (plain n) → Holds name result.now n }
{
    behind(o)
}
