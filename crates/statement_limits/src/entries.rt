// The entries of the lists of a statement. Some hold a list of their own.
ghost use Rattle.std.specs.Prelude.{◌≡◌, List};
ghost use Rattle.bytes_format.proofs.Formats.{list_of};
ghost use Rattle.bytes_bundle.specs.Held.{Is, Holds};
ghost use Rattle.image_expression.specs.Expression.{expression};
ghost use Rattle.image_expression.specs.Names.{Within};
ghost use Rattle.rules.specs.Lists.{all};
ghost use Rattle.rules.specs.Statements.{Expr, ColumnDefinition, Constraint, Item, Target, Assignment};
ghost use Rattle.rules.specs.Limits.{target_names};
ghost use Rattle.image_parts.specs.Layout.{column_definition, constraint, item, assignment_target, assignment};
ghost use Rattle.statement_limits.specs.Within.{column_within, constraint_within, row_within, item_within, assignment_within};

use crate::expressions::is_expression_within;
use crate::lists::is_list_within;
use crate::names::{is_name_within, is_object_name_within};

pub fn is_column_within(d: &[u8]) -> bool
    requires { Is column_definition d.now }
    ensures { (v : ColumnDefinition) → Holds column_definition d.now v → result ≡ column_within v }
{
    is_name_within(image_create::column_name(d))
        && bytes_bundle::parts(image_create::options(d), 2) <= 64
}

pub fn is_constraint_within(c: &[u8]) -> bool
    requires { Is constraint c.now }
    ensures { (v : Constraint) → Holds constraint c.now v → result ≡ constraint_within v }
{
    if !image_create::is_primary_key(c) {
        return true;
    }
    is_list_within(image_create::key_names(c), 64, is_name_within)
}

pub fn is_row_within(r: &[u8]) -> bool
    requires { Is (list_of 2 expression) r.now }
    ensures { (v : List Expr) → Holds (list_of 2 expression) r.now v → result ≡ row_within v }
{
    is_list_within(r, 64, is_expression_within)
}

pub fn is_item_within(i: &[u8]) -> bool
    requires { Is item i.now }
    ensures { (v : Item) → Holds item i.now v → result ≡ item_within v }
{
    if image_select::item_code(i) != 2 {
        return true;
    }
    is_name_within(image_select::column_of(i))
}

fn is_target_within(t: &[u8]) -> bool
    requires { Is assignment_target t.now }
    ensures { (v : Target) → Holds assignment_target t.now v → result ≡ all Within (target_names v) }
{
    if image_update::target_code(t) != 1 {
        return true;
    }
    is_object_name_within(image_update::target_name(t))
}

// The value is looked at whatever the target is.
pub fn is_assignment_within(a: &[u8]) -> bool
    requires { Is assignment a.now }
    ensures { (v : Assignment) → Holds assignment a.now v → result ≡ assignment_within v }
{
    is_target_within(image_update::target_of(a)) && is_expression_within(image_update::value_of(a))
}
