// The bound image of an INSERT, written: its table, its columns and its rows, then what stands before them.
#![tactic(auto)]

ghost use Rattle.std.specs.Prelude.{◌≡◌};
ghost use Rattle.bytes_wire.specs.Sets.{Wrote};
ghost use Rattle.bytes_bundle.specs.Held.{Is, Holds};
ghost use Rattle.image_catalogue.specs.Layout.{catalogue};
ghost use Rattle.image_parts.specs.Layout.{insertion};
ghost use Rattle.image_bound.specs.Layout.{bound_statement};
ghost use Rattle.rules.specs.Answers.{given};
ghost use Rattle.rules.specs.Analyze.{analyze_insert};
ghost use Rattle.rules.specs.Bound.{BoundStatement};
ghost use Rattle.rules.specs.Statements.{Insert};
ghost use Rattle.rules.specs.Tables.{Catalogue};
ghost use Rattle.bind_table.specs.Room.{Bindable};
ghost use Rattle.bind_insert.specs.Within.{InsertWithin};
ghost use Rattle.write_insert.specs.Written.{HasRows, Rows, InsertRoom, Writes};

use bind_table::name_table;
use bind_table_ref::put_table;
use image_bound::bundles::put_head3;
use image_bound::fields::put_byte;
use image_insert::{body_of, rows_of, source_of};
use write_insert_columns::put_targets;
use write_insert_rows::put_rows;

// The rows of a source that is VALUES.
fn rows_in(i: &[u8]) -> &[u8]
    requires { HasRows i.now }
    ensures { Rows i.now result.now }
{
    rows_of(body_of(source_of(i)))
}

// Behind the table. A code and the lengths of the three parts have 17 bytes; they are known when the parts are written.
fn write_into(t: &[u8], i: &[u8], out: &mut [u8]) -> usize
    requires { InsertWithin i.now × InsertRoom t.now i.now out.old }
    ensures { Writes t.now i.now out.old result out.new }
{
    let names = image_insert::columns(i);
    let rows = rows_in(i);
    put_byte(out, 0, 1);
    let a = put_table(out, 17, t);
    let b = put_targets(out, a, t, names);
    let c = put_rows(out, b, rows);
    put_head3(out, 1, a - 17, b - a, c - b);
    c
}

pub fn write_insert(c: &[u8], i: &[u8], out: &mut [u8]) -> usize
    requires { (Is insertion i.now × InsertWithin i.now) × Bindable insertion bound_statement analyze_insert c.now i.now out.old }
    ensures { (cat : Catalogue) (v : Insert) (b : BoundStatement) → Holds catalogue c.now cat → Holds insertion i.now v
        → analyze_insert cat v ≡ given b → Wrote out.old 0 (bound_statement.write b) result out.new }
{
    match name_table(c, image_insert::table_name(i)) {
        Ok(t) => write_into(t, i, out),
        // never: the table is found
        Err(_) => 0,
    }
}
