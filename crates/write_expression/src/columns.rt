// Columns of a table that were looked up.
ghost use Rattle.std.specs.Prelude.{◌+◌, ◌≤◌, length};
ghost use Rattle.bytes_wire.specs.Sets.{Wrote};
ghost use Rattle.image_bound.specs.Columns.{bound_column_ref};
ghost use Rattle.write_expression.specs.Found.{ref_of};

use catalogue_lookup::Column;
use image_bound::columns::put_column_ref;
use rules::TableId;

// The reference to a column of the table of this id.
pub fn put_found(out: &mut [u8], at: usize, table: TableId, c: Column<'_>) -> usize
    requires { at + (26 + length c.name.now) ≤ length out.old }
    ensures { Wrote out.old at (bound_column_ref.write (ref_of c.entry table)) result out.new }
{
    put_column_ref(out, at, table, c.id, c.ordinal, c.ty, c.nullable, c.name)
}
