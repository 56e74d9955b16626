// CREATE TABLE: its name, its columns and its constraints.
ghost use Rattle.std.specs.Prelude.{◌≡◌};
ghost use Rattle.bytes_bundle.specs.Held.{Is, Holds};
ghost use Rattle.rules.specs.Statements.{CreateTable};
ghost use Rattle.rules.specs.Limits.{held_by_create_table, held_within};
ghost use Rattle.image_parts.specs.Layout.{create};

use crate::entries::{is_column_within, is_constraint_within};
use crate::lists::is_list_within;
use crate::names::is_object_name_within;

pub fn is_create_within(c: &[u8]) -> bool
    requires { Is create c.now }
    ensures { (v : CreateTable) → Holds create c.now v → result ≡ held_within (held_by_create_table v) }
{
    is_object_name_within(image_create::table_name(c))
        && is_list_within(image_create::columns(c), 64, is_column_within)
        && is_list_within(image_create::constraints(c), 64, is_constraint_within)
}
