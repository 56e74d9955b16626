// UPDATE: the table, the assignments and the condition.
ghost use Rattle.std.specs.Prelude.{◌≡◌};
ghost use Rattle.bytes_bundle.specs.Held.{Is, Holds};
ghost use Rattle.rules.specs.Statements.{Update};
ghost use Rattle.rules.specs.Limits.{held_by_update, held_within};
ghost use Rattle.image_parts.specs.Layout.{updating};

use crate::entries::is_assignment_within;
use crate::expressions::is_condition_within;
use crate::lists::is_list_within;
use crate::names::is_table_within;

pub fn is_update_within(u: &[u8]) -> bool
    requires { Is updating u.now }
    ensures { (v : Update) → Holds updating u.now v → result ≡ held_within (held_by_update v) }
{
    is_table_within(image_update::table_of(u))
        && is_list_within(image_update::assignments(u), 64, is_assignment_within)
        && is_condition_within(image_update::condition_of(u))
}
