// DELETE: the names of its table and its condition.
ghost use Rattle.std.specs.Prelude.{◌≡◌};
ghost use Rattle.bytes_bundle.specs.Held.{Is, Holds};
ghost use Rattle.rules.specs.Statements.{DeleteFrom, Delete};
ghost use Rattle.rules.specs.Limits.{delete_names, held_by_delete};
ghost use Rattle.image_parts.specs.Layout.{delete_from, deletion};
ghost use Rattle.statement_ascii.specs.Beyond.{Beyond};

use crate::named::{condition_beyond, table_beyond};

fn from_beyond(f: &[u8]) -> bool
    requires { Is delete_from f.now }
    ensures { (v : DeleteFrom) → Holds delete_from f.now v → result ≡ Beyond (delete_names v) }
{
    if image_delete::from_code(f) != 2 {
        return false;
    }
    table_beyond(image_delete::table_of(f))
}

pub fn delete_beyond(d: &[u8]) -> bool
    requires { Is deletion d.now }
    ensures { (v : Delete) → Holds deletion d.now v → result ≡ Beyond (held_by_delete v).names }
{
    from_beyond(image_delete::from_of(d)) || condition_beyond(image_delete::condition_of(d))
}
