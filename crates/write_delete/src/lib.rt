// The bound DELETE. The code and the head of the record have 13 bytes, and are written behind the parts, when the ends of these are known.
#![tactic(auto)]

ghost use Rattle.std.specs.Prelude.{◌≡◌};
ghost use Rattle.bytes_wire.specs.Sets.{Wrote};
ghost use Rattle.bytes_bundle.specs.Held.{Holds};
ghost use Rattle.image_bound.specs.Layout.{bound_statement};
ghost use Rattle.image_catalogue.specs.Layout.{table, catalogue};
ghost use Rattle.image_expression.specs.Expression.{expression};
ghost use Rattle.bind_table.specs.Room.{Bindable};
ghost use Rattle.rules.specs.Analyze.{analyze_delete};
ghost use Rattle.rules.specs.Answers.{given};
ghost use Rattle.rules.specs.Bound.{BoundExpr, BoundStatement};
ghost use Rattle.rules.specs.Fits.{bind_boolean_filter};
ghost use Rattle.rules.specs.Statements.{Delete, Expr};
ghost use Rattle.rules.specs.Tables.{TableSchema, Catalogue};
ghost use Rattle.image_parts.specs.Layout.{deletion};
ghost use Rattle.bind_delete.specs.Deletes.{deleted};
ghost use Rattle.bind_delete.specs.Within.{DeleteWithin};
ghost use Rattle.write_delete.specs.Writes.{DeleteReady};

use bind_delete::deleted_table;
use bind_table_ref::put_table;
use image_bound::bundles::put_head2;
use image_bound::fields::put_byte;
use image_delete::condition_of;
use write_expression::put_expression;

fn put_delete(out: &mut [u8], t: &[u8], e: &[u8]) -> usize
    requires { DeleteReady t.now e.now out.old }
    ensures { (v : TableSchema) (x : Expr) (b : BoundExpr) → Holds table t.now v → Holds expression e.now x → bind_boolean_filter v x ≡ given b
        → Wrote out.old 0 (bound_statement.write (deleted v b)) result out.new }
{
    let filter = put_table(out, 13, t);
    let end = put_expression(out, filter, t, e);
    put_head2(out, 1, filter - 13, end - filter);
    put_byte(out, 0, 4);
    end
}

// Where the statement ends. It is known to be bound, and to have room.
pub fn write_delete(c: &[u8], d: &[u8], out: &mut [u8]) -> usize
    requires { DeleteWithin d.now × Bindable deletion bound_statement analyze_delete c.now d.now out.old }
    ensures { (cat : Catalogue) (v : Delete) (b : BoundStatement) → Holds catalogue c.now cat → Holds deletion d.now v → analyze_delete cat v ≡ given b
        → Wrote out.old 0 (bound_statement.write b) result out.new }
{
    match deleted_table(c, d) {
        Ok(t) => put_delete(out, t, condition_of(d)),
        // never: it is bound over a table
        Err(_) => 0,
    }
}
