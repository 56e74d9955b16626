// DELETE: the table and the condition.
ghost use Rattle.std.specs.Prelude.{◌≡◌};
ghost use Rattle.bytes_bundle.specs.Held.{Is, Holds};
ghost use Rattle.image_expression.specs.Names.{Within};
ghost use Rattle.rules.specs.Lists.{all};
ghost use Rattle.rules.specs.Statements.{DeleteFrom, Delete};
ghost use Rattle.rules.specs.Limits.{delete_names, held_by_delete, held_within};
ghost use Rattle.image_parts.specs.Layout.{delete_from, deletion};

use crate::expressions::is_condition_within;
use crate::names::is_table_within;

fn is_from_within(f: &[u8]) -> bool
    requires { Is delete_from f.now }
    ensures { (v : DeleteFrom) → Holds delete_from f.now v → result ≡ all Within (delete_names v) }
{
    if image_delete::from_code(f) != 2 {
        return true;
    }
    is_table_within(image_delete::table_of(f))
}

pub fn is_delete_within(d: &[u8]) -> bool
    requires { Is deletion d.now }
    ensures { (v : Delete) → Holds deletion d.now v → result ≡ held_within (held_by_delete v) }
{
    is_from_within(image_delete::from_of(d)) && is_condition_within(image_delete::condition_of(d))
}
