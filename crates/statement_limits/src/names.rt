// Names, and what holds one name or none.
ghost use Rattle.std.specs.Prelude.{◌≡◌};
ghost use Rattle.bytes_bundle.specs.Held.{Is, Holds};
ghost use Rattle.image_expression.specs.Names.{Within};
ghost use Rattle.rules.specs.Lists.{all};
ghost use Rattle.rules.specs.Statements.{Name, ObjectName, Relation, TableWithJoins};
ghost use Rattle.rules.specs.Limits.{object_names, relation_names, table_names};
ghost use Rattle.image_parts.specs.Layout.{name, object_name, relation, table_with_joins};

use image_parts::{names, table};

pub fn is_name_within(n: &[u8]) -> bool
    requires { Is name n.now }
    ensures { (v : Name) → Holds name n.now v → result ≡ Within v }
{
    let text = names::name_text(n);
    text.len() <= 128
}

pub fn is_object_name_within(o: &[u8]) -> bool
    requires { Is object_name o.now }
    ensures { (v : ObjectName) → Holds object_name o.now v → result ≡ all Within (object_names v) }
{
    if names::object_name_code(o) != 1 {
        return true;
    }
    is_name_within(names::only_name(o))
}

fn is_relation_within(s: &[u8]) -> bool
    requires { Is relation s.now }
    ensures { (v : Relation) → Holds relation s.now v → result ≡ all Within (relation_names v) }
{
    if table::relation_code(s) != 1 {
        return true;
    }
    is_object_name_within(table::relation_name(s))
}

pub fn is_table_within(t: &[u8]) -> bool
    requires { Is table_with_joins t.now }
    ensures { (v : TableWithJoins) → Holds table_with_joins t.now v → result ≡ all Within (table_names v) }
{
    is_relation_within(table::relation_of(t))
}
