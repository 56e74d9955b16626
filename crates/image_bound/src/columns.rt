// A table, a column reference and a column of a bound statement.
ghost use Rattle.std.specs.Prelude.{◌≡◌, ◌+◌, ◌≤◌, length};
ghost use Rattle.bytes_wire.specs.Sets.{Wrote};
ghost use Rattle.image_value.specs.Parts.{column_schema};
ghost use Rattle.rules.specs.Tables.{ColumnSchema};
ghost use Rattle.rules.specs.Bound.{BoundTableRef, BoundColumnRef};
ghost use Rattle.image_bound.specs.Columns.{bound_table_ref, bound_column_ref};
ghost use Rattle.image_bound.specs.Made.{table_ref, column_ref, column_of};

use crate::fields::{put_id, put_type_and_null};
use rules::{ColumnId, DataType, Ordinal, TableId};

pub fn put_table_ref(out: &mut [u8], at: usize, id: TableId, version: u64, name: &[u8]) -> usize
    requires { at + (16 + length name.now) ≤ length out.old }
    ensures { Wrote out.old at (bound_table_ref.write (table_ref id version name.now)) result out.new }
{
    let a = bytes_wire::put(out, at, 8, id.0);
    let b = bytes_wire::put(out, a, 8, version);
    bytes_wire::put_all(out, b, name)
}

pub fn put_column_ref(
    out: &mut [u8],
    at: usize,
    table: TableId,
    id: ColumnId,
    ordinal: Ordinal,
    ty: DataType,
    nullable: bool,
    name: &[u8],
) -> usize
    requires { at + (26 + length name.now) ≤ length out.old }
    ensures { Wrote out.old at (bound_column_ref.write (column_ref table id ordinal ty nullable name.now)) result out.new }
{
    let a = bytes_wire::put(out, at, 8, table.0);
    let b = put_id(out, a, id);
    let place = ordinal.0;
    let c = bytes_wire::put(out, b, 8, place as u64);
    let d = put_type_and_null(out, c, ty, nullable);
    bytes_wire::put_all(out, d, name)
}

// A record of two parts: the numbers, which have 10 bytes, and the name.
pub fn put_column_schema(
    out: &mut [u8],
    at: usize,
    id: ColumnId,
    ty: DataType,
    nullable: bool,
    name: &[u8],
) -> usize
    requires { at + (22 + length name.now) ≤ length out.old }
    ensures { Wrote out.old at ((column_schema 4).write (column_of id ty nullable name.now)) result out.new }
{
    let a = bytes_wire::put(out, at, 4, 2);
    let b = bytes_wire::put(out, a, 4, 10);
    let c = bytes_wire::put(out, b, 4, name.len() as u64);
    let d = put_id(out, c, id);
    let e = put_type_and_null(out, d, ty, nullable);
    bytes_wire::put_all(out, e, name)
}

// ---- lengths. No name is longer than an image may be, so no sum wraps.

pub fn table_ref_len(name_len: usize) -> usize
    requires { name_len ≤ 65536 }
    ensures { (result ≡ 16 + name_len) × ((t : BoundTableRef) → length t.name ≡ name_len → result ≡ length (bound_table_ref.write t)) }
{
    16 + name_len
}

pub fn column_ref_len(name_len: usize) -> usize
    requires { name_len ≤ 65536 }
    ensures { (result ≡ 26 + name_len) × ((c : BoundColumnRef) → length c.name ≡ name_len → result ≡ length (bound_column_ref.write c)) }
{
    26 + name_len
}

pub fn column_schema_len(name_len: usize) -> usize
    requires { name_len ≤ 65536 }
    ensures { (result ≡ 22 + name_len) × ((c : ColumnSchema) → length c.name ≡ name_len → result ≡ length ((column_schema 4).write c)) }
{
    22 + name_len
}
