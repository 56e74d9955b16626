// The columns that a SELECT's items name, written as a list: how many, the length of each, the columns. An item may name many columns (`*`),
// so they are counted first, and written at two cursors.
#![tactic(auto)]

ghost use Rattle.std.specs.Prelude.{◌≡◌, List, [], ◌∷◌, ◌+◌, ◌≤◌, length};
ghost use Rattle.std.proofs.Math.Option.{some};
ghost use Rattle.bytes_wire.specs.Sets.{Wrote};
ghost use Rattle.bytes_format.proofs.Formats.{list_of};
ghost use Rattle.bytes_bundle.specs.Held.{Is, Holds};
ghost use Rattle.image_bound.specs.Columns.{bound_column_ref};
ghost use Rattle.image_catalogue.specs.Layout.{table};
ghost use Rattle.rules.specs.Answers.{given};
ghost use Rattle.rules.specs.Analyze.{item, projection};
ghost use Rattle.rules.specs.Bound.{BoundColumnRef};
ghost use Rattle.rules.specs.Lookup.{bound_column, bound_columns, column_by_name};
ghost use Rattle.rules.specs.Names.{canonical};
ghost use Rattle.rules.specs.Statements.{Name, Item};
ghost use Rattle.rules.specs.Tables.{ColumnSchema, TableSchema};
ghost use Rattle.image_parts.specs.Layout as layout;
ghost use Rattle.image_value.specs.Parts.{column_schema};
ghost use Rattle.write_select_columns.specs.Laid.{Laid};
ghost use Rattle.write_select_columns.specs.Columns.{ColumnRoom, NameRoom, StarRoom};
ghost use Rattle.write_select_columns.specs.Items.{ItemGives, ItemRoom, ItemsFew, ItemsRoom, ProjectionRoom};

use bind_select::column_called;
use image_bound::columns::put_column_ref;
use image_catalogue::{column_id, column_name, column_nullable, column_type, columns, table_id};
use image_select::{column_of, item_code};
use rules::{Ordinal, TableId};
use write_expression::columns::put_found;

// Where the next length goes, and where the next column.
#[derive(Clone, Copy)]
struct Cursor {
    row: usize,
    to: usize,
}

// ---- columns

// Column i of the table of this id, by its image.
fn put_column(out: &mut [u8], to: usize, id: TableId, i: usize, c: &[u8]) -> usize
    requires { ColumnRoom c.now to out.old }
    ensures { (v : TableSchema) (x : ColumnSchema) → id ≡ v.id → Holds (column_schema 2) c.now x
        → Wrote out.old to (bound_column_ref.write (bound_column v i x)) result out.new }
{
    put_column_ref(
        out,
        to,
        id,
        column_id(c),
        Ordinal(i),
        column_type(c),
        column_nullable(c),
        column_name(c),
    )
}

// All columns of the table of this id.
fn put_columns(out: &mut [u8], row: usize, to: usize, id: TableId, s: &[u8]) -> Cursor
    requires { StarRoom id s.now row to out.old }
    ensures { (v : TableSchema) → id ≡ v.id → Holds (list_of 2 (column_schema 2)) s.now v.columns
        → Laid bound_column_ref (bound_columns v) out.old row to result.row result.to out.new }
{
    let mut entry = row;
    let mut part = to;
    for (i, c) in bytes_bundle::iter(s, 2).enumerate() {
        let next = put_column(out, part, id, i, c);
        entry = bytes_wire::put(out, entry, 4, (next - part) as u64);
        part = next;
    }
    Cursor {
        row: entry,
        to: part,
    }
}

// The column that a name stands for.
fn put_called(out: &mut [u8], to: usize, t: &[u8], n: &[u8]) -> usize
    requires { NameRoom t.now n.now to out.old }
    ensures { (v : TableSchema) (x : Name) (b : BoundColumnRef) → Holds table t.now v → Holds layout.name n.now x → column_by_name v (canonical x) ≡ some b
        → Wrote out.old to (bound_column_ref.write b) result out.new }
{
    match column_called(t, n) {
        Some(c) => put_found(out, to, table_id(t), c),
        // never: the name is a column's
        None => to,
    }
}

fn put_one(out: &mut [u8], row: usize, to: usize, t: &[u8], n: &[u8]) -> Cursor
    requires { (row + 4 ≤ to) × NameRoom t.now n.now to out.old }
    ensures { (v : TableSchema) (x : Name) (b : BoundColumnRef) → Holds table t.now v → Holds layout.name n.now x → column_by_name v (canonical x) ≡ some b
        → Laid bound_column_ref (b ∷ []) out.old row to result.row result.to out.new }
{
    let next = put_called(out, to, t, n);
    let entry = bytes_wire::put(out, row, 4, (next - to) as u64);
    Cursor {
        row: entry,
        to: next,
    }
}

// ---- items

// `*` stands for all columns of the table, any other item that is bound for one.
fn item_columns(t: &[u8], i: &[u8]) -> usize
    requires { ItemGives t.now i.now }
    ensures { (v : TableSchema) (x : Item) (cs : List BoundColumnRef) → Holds table t.now v → Holds layout.item i.now x → item v x ≡ given cs
        → result ≡ length cs }
{
    if item_code(i) == 1 {
        return bytes_bundle::parts(columns(t), 2);
    }
    1
}

fn put_item(out: &mut [u8], row: usize, to: usize, t: &[u8], i: &[u8]) -> Cursor
    requires { ItemRoom t.now i.now row to out.old }
    ensures { (v : TableSchema) (x : Item) (cs : List BoundColumnRef) → Holds table t.now v → Holds layout.item i.now x → item v x ≡ given cs
        → Laid bound_column_ref cs out.old row to result.row result.to out.new }
{
    if item_code(i) == 1 {
        return put_columns(out, row, to, table_id(t), columns(t));
    }
    put_one(out, row, to, t, column_of(i))
}

// How many columns the items name. They have room, so their number does not wrap.
fn count_columns(t: &[u8], s: &[u8]) -> usize
    requires { ItemsFew t.now s.now }
    ensures { (v : TableSchema) (xs : List Item) (cs : List BoundColumnRef) → Holds table t.now v → Holds (list_of 2 layout.item) s.now xs
        → projection v xs ≡ given cs → result ≡ length cs }
{
    let mut sum = 0;
    for item in bytes_bundle::iter(s, 2) {
        sum += item_columns(t, item);
    }
    sum
}

fn put_items(out: &mut [u8], row: usize, to: usize, t: &[u8], s: &[u8]) -> Cursor
    requires { ItemsRoom t.now s.now row to out.old }
    ensures { (v : TableSchema) (xs : List Item) (cs : List BoundColumnRef) → Holds table t.now v → Holds (list_of 2 layout.item) s.now xs
        → projection v xs ≡ given cs → Laid bound_column_ref cs out.old row to result.row result.to out.new }
{
    let mut entry = row;
    let mut part = to;
    for item in bytes_bundle::iter(s, 2) {
        let next = put_item(out, entry, part, t, item);
        entry = next.row;
        part = next.to;
    }
    Cursor {
        row: entry,
        to: part,
    }
}

pub fn put_projection(out: &mut [u8], at: usize, t: &[u8], s: &[u8]) -> usize
    requires { ProjectionRoom t.now s.now at out.old }
    ensures { (v : TableSchema) (xs : List Item) (cs : List BoundColumnRef) → Holds table t.now v → Holds (list_of 2 layout.item) s.now xs
        → projection v xs ≡ given cs → Wrote out.old at ((list_of 4 bound_column_ref).write cs) result out.new }
{
    let n = count_columns(t, s);
    let row = bytes_wire::put(out, at, 4, n as u64);
    let end = put_items(out, row, row + 4 * n, t, s);
    end.to
}
