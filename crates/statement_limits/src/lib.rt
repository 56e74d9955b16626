// The top sizes of a statement (paper 01, refusal 7). Every part is looked at through its accessors; no byte position is known here.
#![tactic(auto)]

mod creates;
mod deletes;
mod entries;
mod expressions;
mod inserts;
mod lists;
mod names;
mod selects;
mod updates;

ghost use Rattle.std.specs.Prelude.{◌≡◌, length};
ghost use Rattle.bytes_bundle.specs.Held.{Is, Holds};
ghost use Rattle.rules.specs.Statements.{Statement};
ghost use Rattle.rules.specs.Limits.{statement_within};
ghost use Rattle.image_parts.specs.Layout.{statement};

use creates::is_create_within;
use deletes::is_delete_within;
use inserts::is_insert_within;
use selects::is_query_within;
use updates::is_update_within;

// Whether a statement is within the top sizes: its bytes, its names, its lists and its expressions.
pub fn statement_within(s: &[u8]) -> bool
    requires { Is statement s.now }
    ensures { (v : Statement) → Holds statement s.now v → result ≡ statement_within (length s.now) v }
{
    if 65536 < s.len() {
        return false;
    }
    let body = image_statement::kind_body(s);
    match image_statement::kind_code(s) {
        0 => is_create_within(body),
        1 => is_insert_within(body),
        2 => is_query_within(body),
        3 => is_update_within(body),
        4 => is_delete_within(body),
        _ => true,
    }
}
