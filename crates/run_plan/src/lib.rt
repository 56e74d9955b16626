// Which assignment of an UPDATE each position of a row takes its value from.
#![tactic(auto)]

ghost use Rattle.std.specs.Prelude.{◌<◌, List};
ghost use Rattle.bytes_format.proofs.Formats.{list_of};
ghost use Rattle.bytes_bundle.specs.Held.{Holds};
ghost use Rattle.image_catalogue.specs.Layout.{table};
ghost use Rattle.run_expression.specs.Works.{Comes};
ghost use Rattle.bind_where.specs.Short.{ShortExpression};
ghost use Rattle.image_row.specs.Layout.{row};
ghost use Rattle.rules.specs.Rows.{Row};
ghost use Rattle.rules.specs.Statements.{Assignment};
ghost use Rattle.rules.specs.Tables.{TableSchema};
ghost use Rattle.image_parts.specs.Layout.{assignment};
ghost use Rattle.bind_update.specs.Within.{ShortAssignment, ShortAssignments};
ghost use Rattle.run_values.specs.Worths.{text_size_of};
ghost use Rattle.run_plan.specs.Plans.{Plans};
ghost use Rattle.run_plan.specs.Runs.{Runs, Lands};

use bind_update::target_column;
use image_update::{target_of, value_of};
use run_expression::value;
use run_values::Worth;

// What an expression with short names comes to over the row.
pub fn work_out<'a>(t: &[u8], e: &'a [u8], r: &'a [u8]) -> Option<Worth<'a>>
    requires { Runs t.now r.now × ShortExpression e.now }
    ensures comes { Comes t.now e.now r.now result }
    ensures short { text_size_of result < 4294967295 }
{
    value(t, e, r)
}

// The position that an assignment gives its value to; None: its value is a fault, or its target no column.
fn land(t: &[u8], a: &[u8], r: &[u8]) -> Option<usize>
    requires { Runs t.now r.now × ShortAssignment a.now }
    ensures { Lands t.now a.now r.now result }
{
    work_out(t, value_of(a), r)?;
    match target_column(t, target_of(a)) {
        Ok(c) => Some(c.ordinal.0),
        Err(_) => None,
    }
}

// Every assignment is worked out, also one whose position a later one takes. The plan has for each position the number of the last assignment
// that gives it a value, and None where none does; there is no plan where one of them lands nowhere.
pub fn plan(t: &[u8], s: &[u8], r: &[u8]) -> Option<[Option<usize>; 64]>
    requires { Runs t.now r.now × ShortAssignments s.now }
    ensures { (v : TableSchema) (x : Row) (xs : List Assignment) → Holds table t.now v → Holds row r.now x
        → Holds (list_of 2 assignment) s.now xs → Plans v x xs result }
{
    let mut from = [None; 64];
    for (i, part) in bytes_bundle::iter(s, 2).enumerate() {
        let o = land(t, part, r)?;
        from[o] = Some(i);
    }
    Some(from)
}
