// CREATE TABLE: its name, its columns' names, and the names of its keys.
ghost use Rattle.std.specs.Prelude.{◌≡◌};
ghost use Rattle.bytes_bundle.specs.Held.{Is, Holds};
ghost use Rattle.rules.specs.Statements.{ColumnDefinition, Constraint, CreateTable};
ghost use Rattle.rules.specs.Limits.{constraint_names, held_by_create_table};
ghost use Rattle.image_parts.specs.Layout.{column_definition, constraint, create};
ghost use Rattle.rules.specs.Names.{beyond_ascii};
ghost use Rattle.statement_ascii.specs.Beyond.{Beyond};

use crate::named::{name_beyond, object_name_beyond};

fn column_beyond(d: &[u8]) -> bool
    requires { Is column_definition d.now }
    ensures { (v : ColumnDefinition) → Holds column_definition d.now v → result ≡ beyond_ascii v.name }
{
    name_beyond(image_create::column_name(d))
}

fn constraint_beyond(c: &[u8]) -> bool
    requires { Is constraint c.now }
    ensures { (v : Constraint) → Holds constraint c.now v → result ≡ Beyond (constraint_names v) }
{
    if !image_create::is_primary_key(c) {
        return false;
    }
    bytes_bundle::iter(image_create::key_names(c), 2).any(name_beyond)
}

pub fn create_beyond(c: &[u8]) -> bool
    requires { Is create c.now }
    ensures { (v : CreateTable) → Holds create c.now v → result ≡ Beyond (held_by_create_table v).names }
{
    object_name_beyond(image_create::table_name(c))
        || bytes_bundle::iter(image_create::columns(c), 2).any(column_beyond)
        || bytes_bundle::iter(image_create::constraints(c), 2).any(constraint_beyond)
}
