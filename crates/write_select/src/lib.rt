// The bound SELECT. The code and the head of the record have 17 bytes, and are written behind the parts, when the ends of these are known.
#![tactic(auto)]

ghost use Rattle.std.specs.Prelude.{◌≡◌, List};
ghost use Rattle.std.proofs.Math.Option.{Option};
ghost use Rattle.bytes_wire.specs.Sets.{Wrote};
ghost use Rattle.bytes_bundle.specs.Held.{Holds};
ghost use Rattle.image_bound.specs.Layout.{bound_statement};
ghost use Rattle.image_catalogue.specs.Layout.{table, catalogue};
ghost use Rattle.bind_table.specs.Room.{Bindable};
ghost use Rattle.rules.specs.Analyze.{projection, filter_if_there, analyze_select};
ghost use Rattle.rules.specs.Answers.{given};
ghost use Rattle.rules.specs.Bound.{BoundColumnRef, BoundExpr, BoundStatement};
ghost use Rattle.rules.specs.Statements.{Select, Query, Expr};
ghost use Rattle.rules.specs.Tables.{TableSchema, Catalogue};
ghost use Rattle.image_parts.specs.Layout as layout;
ghost use Rattle.bind_select.specs.Selects.{Filter, selected};
ghost use Rattle.bind_select.specs.Within.{QueryWithin};
ghost use Rattle.write_select.specs.Writes.{FilterRoom, SelectReady};

use bind_select::selected_table;
use bind_table_ref::put_table;
use image_bound::bundles::put_head3;
use image_bound::fields::put_byte;
use image_parts::condition::has_condition;
use image_select::{body_of, condition_of, items_of, select_of};
use write_expression::put_expression;
use write_select_columns::put_projection;

// Nothing is written where there is no condition.
fn put_filter(out: &mut [u8], at: usize, t: &[u8], e: &[u8]) -> usize
    requires { FilterRoom t.now e.now at out.old }
    ensures { (v : TableSchema) (o : Option Expr) (x : Option BoundExpr) → Holds table t.now v → Holds layout.condition e.now o
        → filter_if_there v o ≡ given x → Wrote out.old at (Filter.write x) result out.new }
{
    if !has_condition(e) {
        return at;
    }
    put_expression(out, at, t, e)
}

fn put_select(out: &mut [u8], t: &[u8], s: &[u8]) -> usize
    requires { SelectReady t.now s.now out.old }
    ensures { (v : TableSchema) (x : Select) (cs : List BoundColumnRef) (f : Option BoundExpr) → Holds table t.now v → Holds layout.select s.now x
        → projection v x.items ≡ given cs → filter_if_there v x.condition ≡ given f
        → Wrote out.old 0 (bound_statement.write (selected v cs f)) result out.new }
{
    let columns = put_table(out, 17, t);
    let filter = put_projection(out, columns, t, items_of(s));
    let end = put_filter(out, filter, t, condition_of(s));
    put_head3(out, 1, columns - 17, filter - columns, end - filter);
    put_byte(out, 0, 2);
    end
}

// Where the statement ends. It is known to be bound, and to have room.
pub fn write_select(c: &[u8], q: &[u8], out: &mut [u8]) -> usize
    requires { QueryWithin q.now × Bindable layout.selection bound_statement analyze_select c.now q.now out.old }
    ensures { (cat : Catalogue) (v : Query) (b : BoundStatement) → Holds catalogue c.now cat → Holds layout.selection q.now v → analyze_select cat v ≡ given b
        → Wrote out.old 0 (bound_statement.write b) result out.new }
{
    let s = select_of(body_of(q));
    match selected_table(c, s) {
        Ok(t) => put_select(out, t, s),
        // never: it is bound over a table
        Err(_) => 0,
    }
}
