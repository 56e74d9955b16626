// Number 8 of paper 01: whether an unquoted name in a statement holds a byte of 128 or more. Every part is looked at through its accessors.
#![tactic(auto)]

mod creates;
mod deletes;
mod inserts;
mod named;
mod selects;
mod updates;

ghost use Rattle.std.specs.Prelude.{◌≡◌};
ghost use Rattle.bytes_bundle.specs.Held.{Is, Holds};
ghost use Rattle.rules.specs.Statements.{Statement};
ghost use Rattle.rules.specs.Limits.{names_beyond_ascii};
ghost use Rattle.image_parts.specs.Layout.{statement};

use creates::create_beyond;
use deletes::delete_beyond;
use inserts::insert_beyond;
use selects::query_beyond;
use updates::update_beyond;

pub fn names_beyond_ascii(s: &[u8]) -> bool
    requires { Is statement s.now }
    ensures { (v : Statement) → Holds statement s.now v → result ≡ names_beyond_ascii v }
{
    let body = image_statement::kind_body(s);
    match image_statement::kind_code(s) {
        0 => create_beyond(body),
        1 => insert_beyond(body),
        2 => query_beyond(body),
        3 => update_beyond(body),
        4 => delete_beyond(body),
        _ => false,
    }
}
