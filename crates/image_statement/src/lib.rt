// The statement's image: whether bytes are one, and its parts. `specs/Layout.antt` of `image_parts` has the layout and the two round trips.
#![tactic(auto)]

ghost use Rattle.std.specs.Prelude.{◌≡◌, Bool};
ghost use Rattle.bytes_bundle.specs.Bundle.{is_there};
ghost use Rattle.image_parts.specs.Layout.{kind, statement};
ghost use Rattle.bytes_format.proofs.Formats.{mark, both, alone};
ghost use Rattle.rules.specs.Statements.{Statement};
ghost use Rattle.bytes_bundle.specs.Held.{Is, Holds};
ghost use Rattle.image_statement.specs.Held.{kind_no, KindHolds};

use image_parts::heads::{are_marks, behind};

// One byte, the kind, and what follows by kind.
fn is_kind(s: &[u8]) -> bool
    ensures { result ≡ is_there (kind.read s.now) }
{
    if s.len() == 0 {
        return false;
    }
    let body = behind(s);
    match s[0] {
        0 => image_create::is_create(body),
        1 => image_insert::is_insert(body),
        2 => image_select::is_query(body),
        3 => image_update::is_update(body),
        4 => image_delete::is_delete(body),
        5 => are_marks(body, 1),
        6 => are_marks(body, 1),
        7 => are_marks(body, 2),
        8 => are_marks(body, 1),
        9 => s.len() == 1,
        _ => false,
    }
}

// Whether bytes are a statement: a record of the raw text and the kind.
pub fn is_statement(s: &[u8]) -> bool
    ensures { result ≡ is_there (statement.read s.now) }
{
    if !bytes_bundle::is_record(s, 2, 2) {
        return false;
    }
    if !bytes_utf8::is_utf8(bytes_bundle::part(s, 2, 0)) {
        return false;
    }
    is_kind(bytes_bundle::part(s, 2, 1))
}

// ---- what a statement holds

// What the client sent.
pub fn raw_of(s: &[u8]) -> &[u8]
    requires { Is statement s.now }
    ensures { (v : Statement) → Holds statement s.now v → result.now ≡ v.raw }
{
    bytes_bundle::part(s, 2, 0)
}

// 0 to 9, as docs/IMAGES.md numbers the kinds.
pub fn kind_code(s: &[u8]) -> u8
    requires { Is statement s.now }
    ensures { (v : Statement) → Holds statement s.now v → result ≡ kind_no v.kind }
{
    let k = bytes_bundle::part(s, 2, 1);
    k[0]
}

// What follows the kind.
pub fn kind_body(s: &[u8]) -> &[u8]
    requires { Is statement s.now }
    ensures { (v : Statement) → Holds statement s.now v → KindHolds v.kind result.now }
{
    behind(bytes_bundle::part(s, 2, 1))
}

// The one mark of a BEGIN, a COMMIT or a SHOW TABLES.
pub fn is_marked(b: &[u8]) -> bool
    requires { Is (alone mark) b.now }
    ensures { (m : Bool) → Holds (alone mark) b.now m → result ≡ m }
{
    b[0] == 1
}

pub fn rollback_chain(b: &[u8]) -> bool
    requires { Is (alone (both mark mark)) b.now }
    ensures { (m n : Bool) → Holds (alone (both mark mark)) b.now (m, n) → result ≡ m }
{
    b[0] == 1
}

pub fn rollback_savepoint(b: &[u8]) -> bool
    requires { Is (alone (both mark mark)) b.now }
    ensures { (m n : Bool) → Holds (alone (both mark mark)) b.now (m, n) → result ≡ n }
{
    b[1] == 1
}
