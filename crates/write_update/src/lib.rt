// A bound UPDATE, written: its code, its table, its assignments, its condition; the head of a record last, when the ends of its parts are
// known.
#![tactic(auto)]

ghost use Rattle.std.specs.Prelude.{◌≡◌, List, []};
ghost use Rattle.bytes_wire.specs.Sets.{Wrote};
ghost use Rattle.bytes_format.proofs.Formats.{list_of};
ghost use Rattle.bytes_bundle.specs.Held.{Is, Holds};
ghost use Rattle.image_bound.specs.Layout as layout;
ghost use Rattle.image_bound.specs.Layout.{bound_statement};
ghost use Rattle.catalogue_lookup.specs.Finds.{ColumnBound};
ghost use Rattle.image_catalogue.specs.Layout.{table, catalogue};
ghost use Rattle.image_expression.specs.Expression.{expression};
ghost use Rattle.image_parts.specs.Layout.{assignment, updating};
ghost use Rattle.bind_table.specs.Room.{Bindable};
ghost use Rattle.rules.specs.Answers.{given};
ghost use Rattle.rules.specs.Analyze as analyze;
ghost use Rattle.rules.specs.Analyze.{analyze_update};
ghost use Rattle.rules.specs.Bound.{BoundColumnRef, BoundExpr, BoundAssignment, BoundStatement};
ghost use Rattle.rules.specs.Marking.{bind_expression};
ghost use Rattle.rules.specs.Statements.{Assignment, Update, Expr};
ghost use Rattle.rules.specs.Tables.{TableSchema, Catalogue};
ghost use Rattle.bind_update.specs.Assigned.{assigned};
ghost use Rattle.bind_update.specs.Updated.{update_table};
ghost use Rattle.bind_update.specs.Within.{Limited};
ghost use Rattle.write_update.specs.Given.{AssignmentGiven};
ghost use Rattle.write_update.specs.Room.{AssignedRoom, AssignmentRoom, AssignmentsRoom, TableRoom};

use bind_table::resolve_direct_table;
use bind_table_ref::put_table;
use bind_update::target_column;
use catalogue_lookup::Column;
use image_bound::bundles::{put_head2, put_head3};
use image_bound::fields::{put_byte, put_count};
use image_catalogue::table_id;
use image_update::{assignments, condition_of, table_of, target_of, value_of};
use write_expression::columns::put_found;
use write_expression::put_expression;

// A column and the value that it is given: a record of two parts.
fn put_assigned(out: &mut [u8], at: usize, t: &[u8], e: &[u8], column: Column<'_>) -> usize
    requires { AssignedRoom t.now e.now column out.old at }
    ensures { (v : TableSchema) (x : Expr) (c : BoundColumnRef) (y : BoundExpr) → Holds table t.now v
        → Holds expression e.now x → ColumnBound column.entry c → c.table_id ≡ v.id → bind_expression v x ≡ given y
        → Wrote out.old at ((layout.assignment).write (assigned c y)) result out.new }
{
    let first = at + 12;
    let second = put_found(out, first, table_id(t), column);
    let end = put_expression(out, second, t, e);
    put_head2(out, at, second - first, end - second);
    end
}

fn put_assignment(out: &mut [u8], at: usize, t: &[u8], a: &[u8]) -> usize
    requires { AssignmentRoom t.now a.now out.old at }
    ensures { (v : TableSchema) (x : Assignment) (b : BoundAssignment) → Holds table t.now v
        → Holds assignment a.now x → AssignmentGiven v x b → Wrote out.old at ((layout.assignment).write b) result out.new }
{
    match target_column(t, target_of(a)) {
        Ok(c) => put_assigned(out, at, t, value_of(a), c),
        // never: the assignment is bound
        Err(_) => at,
    }
}

// The list of the assignments: an assignment, then its length in front of the assignments, which needs no bound of its own, as in the head of
// a record.
fn put_assignments(out: &mut [u8], at: usize, t: &[u8], s: &[u8]) -> usize
    requires { AssignmentsRoom t.now s.now out.old at }
    ensures { (v : TableSchema) (xs : List Assignment) (bs : List BoundAssignment) → Holds table t.now v
        → Holds (list_of 2 assignment) s.now xs → analyze.assignments v [] xs ≡ given bs
        → Wrote out.old at ((list_of 4 layout.assignment).write bs) result out.new }
{
    let n = bytes_bundle::parts(s, 2);
    let lengths = put_count(out, at, n);
    let mut to = lengths;
    let mut body = lengths + 4 * n;
    for a in bytes_bundle::iter(s, 2) {
        let after = put_assignment(out, body, t, a);
        to = bytes_wire::put(out, to, 4, (after - body) as u64);
        body = after;
    }
    body
}

// Over its table: a code, and a record of three parts.
fn put_update(out: &mut [u8], t: &[u8], list: &[u8], w: &[u8]) -> usize
    requires { TableRoom t.now list.now w.now out.old }
    ensures { (v : TableSchema) (xs : List Assignment) (x : Expr) (b : BoundStatement) → Holds table t.now v
        → Holds (list_of 2 assignment) list.now xs → Holds expression w.now x → update_table v xs x ≡ given b
        → Wrote out.old 0 (bound_statement.write b) result out.new }
{
    let head = put_byte(out, 0, 3);
    let first = head + 16;
    let second = put_table(out, first, t);
    let third = put_assignments(out, second, t, list);
    let end = put_expression(out, third, t, w);
    put_head3(out, head, second - first, third - second, end - third);
    end
}

pub fn write_update(c: &[u8], u: &[u8], out: &mut [u8]) -> usize
    requires { (Is updating u.now × Limited u.now) × Bindable updating bound_statement analyze_update c.now u.now out.old }
    ensures { (cat : Catalogue) (v : Update) (b : BoundStatement) → Holds catalogue c.now cat → Holds updating u.now v
        → analyze_update cat v ≡ given b → Wrote out.old 0 (bound_statement.write b) result out.new }
{
    match resolve_direct_table(c, table_of(u)) {
        Ok(t) => put_update(out, t, assignments(u), condition_of(u)),
        // never: the UPDATE is bound
        Err(_) => 0,
    }
}
