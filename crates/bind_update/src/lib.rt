// UPDATE over a catalogue: its assignments in their order, then its condition.
#![tactic(auto)]

ghost use Rattle.std.specs.Prelude.{◌≡◌, ◌≤◌, List, [], IfOk};
ghost use Rattle.bytes_format.proofs.Formats.{list_of};
ghost use Rattle.bytes_bundle.specs.Held.{Is, Holds};
ghost use Rattle.image_bound.specs.Expression.{bound_expression};
ghost use Rattle.image_bound.specs.Layout as layout;
ghost use Rattle.image_bound.specs.Layout.{bound_statement};
ghost use Rattle.catalogue_lookup.specs.Finds.{ColumnBound};
ghost use Rattle.image_catalogue.specs.Layout.{table, catalogue};
ghost use Rattle.image_expression.specs.Expression.{expression};
ghost use Rattle.image_parts.specs.Layout.{assignment_target, assignment, updating};
ghost use Rattle.bind_where.specs.Short.{ShortExpression};
ghost use Rattle.bind_repeats.specs.Entries.{target_in, ShortIn};
ghost use Rattle.bind_table.specs.Told.{sized};
ghost use Rattle.rules.specs.Analyze as analyze;
ghost use Rattle.rules.specs.Analyze.{analyze_update};
ghost use Rattle.rules.specs.Bound.{BoundColumnRef};
ghost use Rattle.rules.specs.Statements.{Target, Assignment, Update, Expr};
ghost use Rattle.rules.specs.Tables.{TableSchema, Catalogue};
ghost use Rattle.bind_update.specs.Targets.{target_column, ShortColumn, TargetedAs, fitting_value};
ghost use Rattle.bind_update.specs.Assigned.{assign_to, judge_assignment};
ghost use Rattle.bind_update.specs.Within.{ShortAssignment, ShortAssignments, Limited};
ghost use Rattle.bind_update.specs.Updated.{update_table, Sound};

use bind_expression::expression_size;
use bind_fits::expression_fit;
use bind_repeats::{Of, first_repeated, is_at};
use bind_table::resolve_direct_table;
use bind_table_ref::table_size;
use bind_where::filter_size;
use catalogue_lookup::{Column, find_column, in_key};
use image_bound::columns::column_ref_len;
use image_bound::fields::count_len;
use image_parts::condition::has_condition;
use image_parts::names::{name_is_quoted, name_text, object_name_code, only_name};
use image_update::{
    assignments, condition_of, has_conflict, has_from, has_returning, table_of, target_code,
    target_name, target_of, value_of,
};
use rules::{Class, DataType, Refusal};

// The column that a target stands for, or the class of the refusal.
pub fn target_column<'a>(t: &'a [u8], g: &[u8]) -> Result<Column<'a>, Class>
    requires { Is table t.now × ShortIn assignment_target target_in g.now }
    ensures { (v : TableSchema) (x : Target) → Holds table t.now v → Holds assignment_target g.now x
        → TargetedAs (target_column v x) result }
{
    if target_code(g) == 0 {
        return Err(Class::UnsupportedSql);
    }
    let o = target_name(g);
    if object_name_code(o) == 0 {
        return Err(Class::UnsupportedSql);
    }
    let n = only_name(o);
    find_column(t, name_is_quoted(n), name_text(n)).ok_or(Class::SchemaMismatch)
}

// How long the image of a value is, which must fit its column.
fn value_size(t: &[u8], e: &[u8], ty: DataType, nullable: bool) -> Result<usize, Refusal>
    requires { Is table t.now × ShortExpression e.now }
    ensures few { IfOk result (λ k. k ≤ 4294967295) }
    ensures told { (v : TableSchema) (x : Expr) (c : BoundColumnRef) → Holds table t.now v → Holds expression e.now x
        → c.ty ≡ ty → c.nullable ≡ nullable → result ≡ sized bound_expression (fitting_value v c x) }
{
    let bound = expression_size(t, e)?;
    expression_fit(bound.mark, ty, nullable)?;
    Ok(bound.len)
}

// How long the image of an assignment to a column is, which must be outside the key: a record of the column and the value.
fn assign_size(t: &[u8], e: &[u8], column: Column<'_>) -> Result<usize, Refusal>
    requires { Is table t.now × (ShortExpression e.now × ShortColumn column) }
    ensures few { IfOk result (λ k. k ≤ 4294967500) }
    ensures told { (v : TableSchema) (x : Expr) (c : BoundColumnRef) → Holds table t.now v → Holds expression e.now x
        → ColumnBound column.entry c → result ≡ sized layout.assignment (assign_to v c x) }
{
    if in_key(t, column.id) {
        return Err(Refusal {
            class: Class::ConstraintViolation,
        });
    }
    let n = value_size(t, e, column.ty, column.nullable)?;
    Ok(12 + column_ref_len(column.name.len()) + n)
}

// One assignment; `repeated`: its target is an earlier one's.
fn assignment_size(t: &[u8], a: &[u8], repeated: bool) -> Result<usize, Refusal>
    requires { Is table t.now × ShortAssignment a.now }
    ensures few { IfOk result (λ k. k ≤ 4294967500) }
    ensures told { (v : TableSchema) (x : Assignment) → Holds table t.now v → Holds assignment a.now x
        → result ≡ sized layout.assignment (judge_assignment repeated v x) }
{
    match target_column(t, target_of(a)) {
        Ok(c) => {
            if repeated {
                return Err(Refusal {
                    class: Class::ConstraintViolation,
                });
            }
            assign_size(t, value_of(a), c)
        }
        Err(class) => Err(Refusal { class }),
    }
}

// The assignments in their turn. Two names of columns are one column exactly if they are one name.
fn assignments_size(t: &[u8], s: &[u8]) -> Result<usize, Refusal>
    requires { Sound t.now × ShortAssignments s.now }
    ensures few { IfOk result (λ k. k ≤ 1000000000000) }
    ensures told { (v : TableSchema) (xs : List Assignment) → Holds table t.now v → Holds (list_of 2 assignment) s.now xs
        → result ≡ sized (list_of 4 layout.assignment) (analyze.assignments v [] xs) }
{
    let place = first_repeated(s, Of::Targets);
    let mut sum = count_len();
    for (i, part) in bytes_bundle::iter(s, 2).enumerate() {
        sum += count_len() + assignment_size(t, part, is_at(place, i))?;
    }
    Ok(sum)
}

// Over its table: a code, and a record of the table, the assignments and the condition.
fn update_size(t: &[u8], list: &[u8], w: &[u8]) -> Result<usize, Refusal>
    requires { Sound t.now × (ShortAssignments list.now × ShortExpression w.now) }
    ensures { (v : TableSchema) (xs : List Assignment) (x : Expr) → Holds table t.now v
        → Holds (list_of 2 assignment) list.now xs → Holds expression w.now x → result ≡ sized bound_statement (update_table v xs x) }
{
    let assigned = assignments_size(t, list)?;
    let filter = filter_size(t, w)?;
    Ok(17 + table_size(t) + assigned + filter)
}

// How long the image of the bound UPDATE is, or the first refusal.
pub fn analyze_update(c: &[u8], u: &[u8]) -> Result<usize, Refusal>
    requires { Is catalogue c.now × (Is updating u.now × Limited u.now) }
    ensures { (cat : Catalogue) (v : Update) → Holds catalogue c.now cat → Holds updating u.now v
        → result ≡ sized bound_statement (analyze_update cat v) }
{
    if has_from(u) {
        return Err(Refusal {
            class: Class::UnsupportedSql,
        });
    }
    if has_returning(u) {
        return Err(Refusal {
            class: Class::UnsupportedSql,
        });
    }
    if has_conflict(u) {
        return Err(Refusal {
            class: Class::UnsupportedSql,
        });
    }
    let list = assignments(u);
    if bytes_bundle::parts(list, 2) == 0 {
        return Err(Refusal {
            class: Class::InvalidArgument,
        });
    }
    match resolve_direct_table(c, table_of(u)) {
        Ok(t) => {
            let w = condition_of(u);
            if !has_condition(w) {
                return Err(Refusal {
                    class: Class::UnsupportedSql,
                });
            }
            update_size(t, list, w)
        }
        Err(r) => Err(r),
    }
}
