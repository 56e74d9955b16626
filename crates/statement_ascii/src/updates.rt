// UPDATE: the names of its table, its assignments and its condition.
ghost use Rattle.std.specs.Prelude.{◌≡◌};
ghost use Rattle.bytes_bundle.specs.Held.{Is, Holds};
ghost use Rattle.rules.specs.Statements.{Target, Assignment, Update};
ghost use Rattle.rules.specs.Limits.{target_names, assignment_names, held_by_update};
ghost use Rattle.image_parts.specs.Layout.{assignment_target, assignment, updating};
ghost use Rattle.statement_ascii.specs.Beyond.{Beyond};

use crate::named::{condition_beyond, object_name_beyond, table_beyond, value_beyond};

fn target_beyond(t: &[u8]) -> bool
    requires { Is assignment_target t.now }
    ensures { (v : Target) → Holds assignment_target t.now v → result ≡ Beyond (target_names v) }
{
    if image_update::target_code(t) != 1 {
        return false;
    }
    object_name_beyond(image_update::target_name(t))
}

// The value is looked at whatever the target is.
fn assignment_beyond(a: &[u8]) -> bool
    requires { Is assignment a.now }
    ensures { (v : Assignment) → Holds assignment a.now v → result ≡ Beyond (assignment_names v) }
{
    target_beyond(image_update::target_of(a)) || value_beyond(image_update::value_of(a))
}

pub fn update_beyond(u: &[u8]) -> bool
    requires { Is updating u.now }
    ensures { (v : Update) → Holds updating u.now v → result ≡ Beyond (held_by_update v).names }
{
    table_beyond(image_update::table_of(u))
        || bytes_bundle::iter(image_update::assignments(u), 2).any(assignment_beyond)
        || condition_beyond(image_update::condition_of(u))
}
