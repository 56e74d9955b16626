// The catalogue's image. `specs/Layout.antt` has its layout and the two round trips.
#![tactic(auto)]

ghost use Rattle.std.specs.Prelude.{◌≡◌};
ghost use Rattle.bytes_format.proofs.Formats.{alone, list_of};
ghost use Rattle.bytes_bundle.specs.Bundle.{is_there};
ghost use Rattle.image_value.specs.Parts.{column_id, column_numbers, column_schema};
ghost use Rattle.rules.specs.Tables.{ColumnSchema, TableSchema};
ghost use Rattle.rules.specs.declared.ColumnId.{ColumnId};
ghost use Rattle.image_catalogue.specs.Layout.{table};
ghost use Rattle.image_catalogue.specs.Values.{HasName, HasNumbers, name_of, id_number};
ghost use Rattle.bytes_bundle.specs.Held.{Holds, Is};

use rules::{ColumnId, DataType, TableId};

// Whether bytes are a column's numbers: an id of 8 bytes, a type code and a mark.
#[tactic(auto, using(crate::specs::Shapes::are_column_numbers_lem))]
fn are_column_numbers(s: &[u8]) -> bool
    ensures { result ≡ is_there ((alone column_numbers).read s.now) }
{
    s.len() == 10 && s[8] < 3 && s[9] < 2
}

// Whether bytes are a column: its numbers and its name.
#[tactic(auto, using(crate::specs::Shapes::is_column_lem, bytes_bundle::specs::Laws::is_record_lem))]
fn is_column(c: &[u8]) -> bool
    ensures { result ≡ is_there ((column_schema 2).read c.now) }
{
    bytes_bundle::is_record(c, 2, 2)
        && are_column_numbers(bytes_bundle::part(c, 2, 0))
        && bytes_utf8::is_utf8(bytes_bundle::part(c, 2, 1))
}

// Whether bytes are a list of columns.
fn are_columns(s: &[u8]) -> bool
    ensures { result ≡ is_there ((list_of 2 (column_schema 2)).read s.now) }
{
    bytes_bundle::is_bundle(s, 2) && bytes_bundle::iter(s, 2).all(is_column)
}

// Whether bytes are a list of ids.
fn are_ids(s: &[u8]) -> bool
    ensures { result ≡ is_there ((list_of 2 (alone column_id)).read s.now) }
{
    bytes_bundle::is_bundle(s, 2) && bytes_bundle::iter(s, 2).all(|id| id.len() == 8)
}

// Whether bytes are a table, sound or not: its numbers (20 bytes), its name, its columns and its key.
#[tactic(auto, using(crate::specs::Shapes::is_table_lem, bytes_bundle::specs::Laws::is_record_lem))]
fn is_table_shape(t: &[u8]) -> bool
    ensures { result ≡ is_there (table.read t.now) }
{
    bytes_bundle::is_record(t, 2, 4)
        && bytes_bundle::part(t, 2, 0).len() == 20
        && bytes_utf8::is_utf8(bytes_bundle::part(t, 2, 1))
        && are_columns(bytes_bundle::part(t, 2, 2))
        && are_ids(bytes_bundle::part(t, 2, 3))
}

// Whether bytes are a list of tables, sound or not.
pub fn are_tables(s: &[u8]) -> bool
    ensures { result ≡ is_there ((list_of 2 table).read s.now) }
{
    bytes_bundle::is_bundle(s, 2) && bytes_bundle::iter(s, 2).all(is_table_shape)
}

// ---- a table's fields

pub fn table_id(t: &[u8]) -> TableId
    requires { Is table t.now }
    ensures { (v : TableSchema) → Holds table t.now v → result ≡ v.id }
{
    let numbers = bytes_bundle::part(t, 2, 0);
    TableId(bytes_wire::get(numbers, 0, 8))
}

pub fn version(t: &[u8]) -> u64
    requires { Is table t.now }
    ensures { (v : TableSchema) → Holds table t.now v → result ≡ v.version }
{
    let numbers = bytes_bundle::part(t, 2, 0);
    bytes_wire::get(numbers, 8, 8)
}

pub fn table_name(t: &[u8]) -> &[u8]
    requires { Is table t.now }
    ensures { (v : TableSchema) → Holds table t.now v → result.now ≡ v.name }
{
    bytes_bundle::part(t, 2, 1)
}

// The list of the columns.
pub fn columns(t: &[u8]) -> &[u8]
    requires { Is table t.now }
    ensures { (v : TableSchema) → Holds table t.now v → Holds (list_of 2 (column_schema 2)) result.now v.columns }
{
    bytes_bundle::part(t, 2, 2)
}

// The list of the key's ids.
pub fn key(t: &[u8]) -> &[u8]
    requires { Is table t.now }
    ensures { (v : TableSchema) → Holds table t.now v → Holds (list_of 2 (alone column_id)) result.now v.key }
{
    bytes_bundle::part(t, 2, 3)
}

// An id of a key's list, which stands alone.
pub fn key_id(p: &[u8]) -> ColumnId
    requires { Is (alone column_id) p.now }
    ensures { (v : ColumnId) → Holds (alone column_id) p.now v → result ≡ v }
{
    ColumnId(bytes_wire::get(p, 0, 8))
}

// ---- a column's fields

pub fn column_id(c: &[u8]) -> ColumnId
    requires { Is (column_schema 2) c.now }
    ensures { (v : ColumnSchema) → Holds (column_schema 2) c.now v → result ≡ v.id }
{
    let numbers = bytes_bundle::part(c, 2, 0);
    ColumnId(bytes_wire::get(numbers, 0, 8))
}

pub fn column_type(c: &[u8]) -> DataType
    requires { Is (column_schema 2) c.now }
    ensures { (v : ColumnSchema) → Holds (column_schema 2) c.now v → result ≡ v.ty }
{
    let numbers = bytes_bundle::part(c, 2, 0);
    match numbers[8] {
        0 => DataType::Int,
        1 => DataType::Text,
        _ => DataType::Bool,
    }
}

pub fn column_nullable(c: &[u8]) -> bool
    requires { Is (column_schema 2) c.now }
    ensures { (v : ColumnSchema) → Holds (column_schema 2) c.now v → result ≡ v.nullable }
{
    let numbers = bytes_bundle::part(c, 2, 0);
    numbers[9] == 1
}

pub fn column_name(c: &[u8]) -> &[u8]
    requires { Is (column_schema 2) c.now }
    ensures { (v : ColumnSchema) → Holds (column_schema 2) c.now v → result.now ≡ v.name }
{
    bytes_bundle::part(c, 2, 1)
}

// ---- what a table and a column have at the same place: who tells entries apart need not know which of the two they are

pub fn entry_name(p: &[u8]) -> &[u8]
    requires { HasName p.now }
    ensures { result.now ≡ name_of p.now }
{
    bytes_bundle::part(p, 2, 1)
}

pub fn entry_id(p: &[u8]) -> u64
    requires { HasNumbers p.now }
    ensures { result ≡ id_number p.now }
{
    let numbers = bytes_bundle::part(p, 2, 0);
    bytes_wire::get(numbers, 0, 8)
}
