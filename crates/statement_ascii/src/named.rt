// Names, what holds one name or none, and a condition, which may be absent.
ghost use Rattle.std.specs.Prelude.{◌≡◌};
ghost use Rattle.std.proofs.Math.Option.{Option};
ghost use Rattle.bytes_bundle.specs.Held.{Is, Holds};
ghost use Rattle.rules.specs.Names.{beyond_ascii};
ghost use Rattle.rules.specs.Statements.{Name, ObjectName, Relation, TableWithJoins, Expr};
ghost use Rattle.rules.specs.Limits.{gather, if_there, expression_names, object_names, relation_names, table_names};
ghost use Rattle.image_expression.specs.Expression.{expression};
ghost use Rattle.image_parts.specs.Layout.{name, object_name, relation, table_with_joins, condition};
ghost use Rattle.statement_ascii.specs.Beyond.{Beyond};

use image_parts::names::{name_is_quoted, name_text, object_name_code, only_name};
use image_parts::table;

pub fn name_beyond(n: &[u8]) -> bool
    requires { Is name n.now }
    ensures { (v : Name) → Holds name n.now v → result ≡ beyond_ascii v }
{
    text_names::beyond_ascii(name_is_quoted(n), name_text(n))
}

pub fn object_name_beyond(o: &[u8]) -> bool
    requires { Is object_name o.now }
    ensures { (v : ObjectName) → Holds object_name o.now v → result ≡ Beyond (object_names v) }
{
    if object_name_code(o) != 1 {
        return false;
    }
    name_beyond(only_name(o))
}

fn relation_beyond(s: &[u8]) -> bool
    requires { Is relation s.now }
    ensures { (v : Relation) → Holds relation s.now v → result ≡ Beyond (relation_names v) }
{
    if table::relation_code(s) != 1 {
        return false;
    }
    object_name_beyond(table::relation_name(s))
}

pub fn table_beyond(t: &[u8]) -> bool
    requires { Is table_with_joins t.now }
    ensures { (v : TableWithJoins) → Holds table_with_joins t.now v → result ≡ Beyond (table_names v) }
{
    relation_beyond(table::relation_of(t))
}

pub fn value_beyond(e: &[u8]) -> bool
    requires { Is expression e.now }
    ensures { (v : Expr) → Holds expression e.now v → result ≡ Beyond (expression_names v) }
{
    image_expression::names_beyond_ascii(e)
}

pub fn condition_beyond(c: &[u8]) -> bool
    requires { Is condition c.now }
    ensures { (v : Option Expr) → Holds condition c.now v → result ≡ Beyond (gather expression_names (if_there v)) }
{
    if !image_parts::condition::has_condition(c) {
        return false;
    }
    value_beyond(c)
}
