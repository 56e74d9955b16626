// Tables, columns and keys looked up in the catalogue's image.
#![tactic(auto)]

ghost use Rattle.std.specs.Prelude.{◌≡◌, List, ◌≤◌, length};
ghost use Rattle.bytes_format.proofs.Formats.{alone, list_of};
ghost use Rattle.image_value.specs.Parts.{column_id, column_schema};
ghost use Rattle.text_names.specs.Compared.{named};
ghost use Rattle.rules.specs.declared.ColumnId.{ColumnId};
ghost use Rattle.rules.specs.Lists.{any};
ghost use Rattle.rules.specs.Names.{canonical};
ghost use Rattle.rules.specs.Tables.{TableSchema, same_id};
ghost use Rattle.rules.specs.Lookup.{in_key};
ghost use Rattle.image_catalogue.specs.Layout.{table};
ghost use Rattle.bytes_bundle.specs.Held.{Holds, Is};
ghost use Rattle.catalogue_lookup.specs.Finds.{FindsTable, Stands, ReadsColumn, FindsColumn};

use rules::{ColumnId, DataType, Ordinal};

// The first of some tables that has the name, as names are compared.
fn table_called<'a>(c: &'a [u8], name: &[u8]) -> Option<&'a [u8]>
    requires { Is (list_of 2 table) c.now }
    ensures { FindsTable c.now name.now result }
{
    bytes_bundle::iter(c, 2).find(|t| text_names::same(name, image_catalogue::table_name(t)))
}

// The table that a name of the statement stands for: its bytes in the catalogue. The name is folded once, and not for each table.
pub fn find_table<'a>(c: &'a [u8], quoted: bool, name: &[u8]) -> Option<&'a [u8]>
    requires { Is (list_of 2 table) c.now × (length name.now ≤ 128) }
    ensures { FindsTable c.now (canonical (named quoted name.now)) result }
{
    let room = text_names::compared(quoted, name);
    let n = name.len();
    table_called(c, &room[..n])
}

// A column, with the position that it has in its table and the name that the catalogue has.
#[derive(Clone, Copy)]
pub struct Column<'a> {
    pub id: ColumnId,
    pub ordinal: Ordinal,
    pub ty: DataType,
    pub nullable: bool,
    pub name: &'a [u8],
}

// Column i of its table.
fn read_column(c: &[u8], i: usize) -> Column<'_>
    requires { Is (column_schema 2) c.now }
    ensures { ReadsColumn c.now i result }
{
    Column {
        id: image_catalogue::column_id(c),
        ordinal: Ordinal(i),
        ty: image_catalogue::column_type(c),
        nullable: image_catalogue::column_nullable(c),
        name: image_catalogue::column_name(c),
    }
}

// The first of some columns that has the name, as names are compared.
fn column_called<'a>(s: &'a [u8], name: &[u8]) -> Option<Column<'a>>
    requires { Is (list_of 2 (column_schema 2)) s.now }
    ensures { Stands s.now name.now result }
{
    for (i, column) in bytes_bundle::iter(s, 2).enumerate() {
        if text_names::same(name, image_catalogue::column_name(column)) {
            return Some(read_column(column, i));
        }
    }
    None
}

// The first of some columns that a name of the statement stands for. The name is folded once, and not for each column.
fn find_among<'a>(s: &'a [u8], quoted: bool, name: &[u8]) -> Option<Column<'a>>
    requires { Is (list_of 2 (column_schema 2)) s.now × (length name.now ≤ 128) }
    ensures { Stands s.now (canonical (named quoted name.now)) result }
{
    let room = text_names::compared(quoted, name);
    let n = name.len();
    column_called(s, &room[..n])
}

// The column that a name of the statement stands for.
// kept: one copy of the search for all its callers is faster than one in each.
#[inline(never)]
pub fn find_column<'a>(t: &'a [u8], quoted: bool, name: &[u8]) -> Option<Column<'a>>
    requires { Is table t.now × (length name.now ≤ 128) }
    ensures { FindsColumn t.now (canonical (named quoted name.now)) result }
{
    find_among(image_catalogue::columns(t), quoted, name)
}

// Whether an id is among some.
fn has_id(s: &[u8], id: ColumnId) -> bool
    requires { Is (list_of 2 (alone column_id)) s.now }
    ensures { (vs : List ColumnId) → Holds (list_of 2 (alone column_id)) s.now vs → result ≡ any (same_id id) vs }
{
    bytes_bundle::iter(s, 2).any(|p| id == image_catalogue::key_id(p))
}

// Whether a column of this id is part of the key.
pub fn in_key(t: &[u8], id: ColumnId) -> bool
    requires { Is table t.now }
    ensures { (v : TableSchema) → Holds table t.now v → result ≡ in_key v id }
{
    has_id(image_catalogue::key(t), id)
}
