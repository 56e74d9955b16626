// A bound CREATE TABLE, written: its code, its name, its columns, the ids of its key; the head of the record last, when the ends of its
// parts are known.
#![tactic(auto)]

ghost use Rattle.std.specs.Prelude.{◌≡◌, not, ◌&&◌, List, [], ◌∷◌, map, ◌+◌, ◌≤◌, ◌<◌, length, take};
ghost use Rattle.std.proofs.Math.Option.{Option, some};
ghost use Rattle.bytes_format.proofs.Formats.{list_of};
ghost use Rattle.bytes_wire.specs.Sets.{Wrote};
ghost use Rattle.image_value.specs.Parts.{column_schema};
ghost use Rattle.bytes_bundle.specs.Held.{Is, Holds};
ghost use Rattle.image_bound.specs.Layout.{bound_statement, create_table};
ghost use Rattle.image_parts.specs.Layout.{name, object_name, column_definition, create};
ghost use Rattle.bind_repeats.specs.Entries.{ShortIn};
ghost use Rattle.rules.specs.declared.ColumnId.{ColumnId};
ghost use Rattle.rules.specs.Lists.{Text, any, find};
ghost use Rattle.rules.specs.Answers.{given};
ghost use Rattle.rules.specs.Analyze.{no_options, options, outside_null, key_ids, analyze_create_table};
ghost use Rattle.rules.specs.Names.{canonical};
ghost use Rattle.rules.specs.Tables.{ColumnSchema, Catalogue, same_id, column_named};
ghost use Rattle.rules.specs.Statements.{Name, plain, ColumnDefinition, CreateTable};
ghost use Rattle.rules.specs.Bound.{BoundStatement};
ghost use Rattle.bind_create.specs.Defined.{stated, typed, may_be_null, schema, schemas, key_of};
ghost use Rattle.bind_create.specs.Keys.{KeyAt};
ghost use Rattle.bind_create.specs.Within.{CreateWithin, FewColumns, FewNames, KeyIn};
ghost use Rattle.bind_table.specs.Room.{Bindable};
ghost use Rattle.image_catalogue.specs.Layout.{catalogue};
ghost use Rattle.write_create.specs.Parts.{column_name, id_at, Marked, KeyMarks, made_columns, table_of, Roomy, RoomyList, PlainName, Writable};

use bind_create::{Key, column_called, find_key, take_options};
use image_bound::bundles::{put_head3, put_ids};
use image_bound::columns::put_column_schema;
use image_bound::fields::{put_byte, put_count};
use image_parts::names::{name_is_quoted, name_text, only_name};
use rules::{ColumnId, DataType};

// A name as it is compared, at the front of the room that the longest one takes.
fn folded(n: &[u8]) -> [u8; 128]
    requires { ShortIn name some n.now }
    ensures { (w : Name) → Holds name n.now w → take (length w.text) result ≡ canonical w }
{
    text_names::compared(name_is_quoted(n), name_text(n))
}

// ---- a column

fn data_type(d: &[u8]) -> DataType
    requires { Is column_definition d.now }
    ensures { (v : ColumnDefinition) → Holds column_definition d.now v → result ≡ typed v.ty }
{
    let code = image_create::type_code(d);
    if code == 1 {
        return DataType::Text;
    }
    if code == 2 {
        return DataType::Bool;
    }
    DataType::Int
}

fn may_be_null(d: &[u8]) -> bool
    requires { Is column_definition d.now }
    ensures { (v : ColumnDefinition) → Holds column_definition d.now v → result ≡ may_be_null (stated (options no_options v.options)) }
{
    match take_options(image_create::options(d)) {
        Ok(state) => state.nullable(),
        // never: no option of a bound statement is refused
        Err(_) => true,
    }
}

// Whether a column may be null: one of the key may not.
fn is_nullable(d: &[u8], in_key: bool) -> bool
    requires { Is column_definition d.now }
    ensures { (v : ColumnDefinition) → Holds column_definition d.now v
        → result ≡ (may_be_null (stated (options no_options v.options)) && not in_key) }
{
    if in_key {
        return false;
    }
    may_be_null(d)
}

// Column i of a table, and whether it is one of the key.
fn put_column(out: &mut [u8], at: usize, d: &[u8], i: usize, in_key: bool) -> usize
    requires { ShortIn column_definition column_name d.now × (i < 64) × Roomy d.now at (length out.old) }
    ensures { (v : ColumnDefinition) (ids : List ColumnId) → Holds column_definition d.now v → in_key ≡ any (same_id (id_at i)) ids
        → Wrote out.old at ((column_schema 4).write (outside_null ids (schema i v))) result out.new }
{
    let n = image_create::column_name(d);
    let room = folded(n);
    let len = name_text(n).len();
    put_column_schema(
        out,
        at,
        ColumnId(i as u64 + 1),
        data_type(d),
        is_nullable(d, in_key),
        &room[..len],
    )
}

// Marks the column that an id stands for: column i has the id i + 1.
fn mark_id(marks: &mut [bool; 64], id: ColumnId)
    requires { length marks.old ≡ 64 }
    ensures { Marked marks.old id marks.new }
{
    let wanted = id.0;
    if wanted == 0 || 64 < wanted {
        return;
    }
    marks[wanted as usize - 1] = true;
}

// For each column whether the first n ids have its own: made once, so that no column searches them.
fn key_marks(ids: [ColumnId; 64], n: usize) -> [bool; 64]
    requires { n ≤ 64 }
    ensures { KeyMarks result (take n ids) }
{
    let mut marks = [false; 64];
    for id in &ids[..n] {
        mark_id(&mut marks, *id);
    }
    marks
}

// The list of the columns of a table whose key has the first `key_len` ids: a column, then its length in front of the columns.
fn put_columns(out: &mut [u8], at: usize, s: &[u8], ids: [ColumnId; 64], key_len: usize) -> usize
    requires { FewColumns s.now × RoomyList s.now at (length out.old) × (key_len ≤ 64) }
    ensures { (cs : List ColumnDefinition) → Holds (list_of 2 column_definition) s.now cs
        → Wrote out.old at ((list_of 4 (column_schema 4)).write (made_columns (take key_len ids) cs)) result out.new }
{
    let marks = key_marks(ids, key_len);
    let n = bytes_bundle::parts(s, 2);
    let lengths = put_count(out, at, n);
    let mut to = lengths;
    let mut body = lengths + 4 * n;
    for (i, d) in bytes_bundle::iter(s, 2).enumerate() {
        let after = put_column(out, body, d, i, marks[i]);
        to = put_count(out, to, after - body);
        body = after;
    }
    body
}

// ---- the ids of the key

// The id of the column that a name stands for.
fn id_of(columns: &[u8], n: &[u8]) -> ColumnId
    requires { FewColumns columns.now × ShortIn name some n.now }
    ensures { (cs : List ColumnDefinition) (w : Name) (c : ColumnSchema) → Holds (list_of 2 column_definition) columns.now cs
        → Holds name n.now w → find (column_named (canonical w)) (schemas 0 cs) ≡ some c → result ≡ c.id }
{
    match column_called(columns, n) {
        Some(i) => ColumnId(i as u64 + 1),
        // never: each name of a bound key is a column's
        None => ColumnId(0),
    }
}

fn name_ids(columns: &[u8], names: &[u8]) -> [ColumnId; 64]
    requires { FewColumns columns.now × FewNames names.now }
    ensures { (cs : List ColumnDefinition) (ns : List Name) (l : List ColumnId) → Holds (list_of 2 column_definition) columns.now cs
        → Holds (list_of 2 name) names.now ns → key_ids (schemas 0 cs) [] (map canonical ns) ≡ given l → take (length l) result ≡ l }
{
    let none = ColumnId(0);
    let mut ids = [none; 64];
    for (k, n) in bytes_bundle::iter(names, 2).enumerate() {
        ids[k] = id_of(columns, n);
    }
    ids
}

fn one_id(columns: &[u8], n: &[u8]) -> [ColumnId; 64]
    requires { FewColumns columns.now × ShortIn name some n.now }
    ensures { (cs : List ColumnDefinition) (w : Name) (l : List ColumnId) → Holds (list_of 2 column_definition) columns.now cs
        → Holds name n.now w → key_ids (schemas 0 cs) [] (canonical w ∷ []) ≡ given l → take (length l) result ≡ l }
{
    let none = ColumnId(0);
    let mut ids = [none; 64];
    ids[0] = id_of(columns, n);
    ids
}

// The ids of the key's columns, at the front of the room that the longest key takes.
fn key_ids(s: &[u8], key: Key) -> [ColumnId; 64]
    requires { CreateWithin s.now × KeyIn s.now key }
    ensures { (v : CreateTable) (names : Option (List Text)) (l : List ColumnId) → Holds create s.now v
        → KeyAt v.columns v.constraints key names → key_of (schemas 0 v.columns) names ≡ given l → take (length l) result ≡ l }
{
    let columns = image_create::columns(s);
    match key {
        // never: a bound statement has a key
        Key::Nowhere => {
            let none = ColumnId(0);
            [none; 64]
        }
        Key::Column(i) => one_id(
            columns,
            image_create::column_name(bytes_bundle::part(columns, 2, i)),
        ),
        Key::Constrained(j) => {
            let c = bytes_bundle::part(image_create::constraints(s), 2, j);
            name_ids(columns, image_create::key_names(c))
        }
    }
}

// How many they are.
fn key_len(s: &[u8], key: Key) -> usize
    requires { CreateWithin s.now × KeyIn s.now key }
    ensures { (result ≤ 64) × ((v : CreateTable) (names : Option (List Text)) (l : List ColumnId) → Holds create s.now v
        → KeyAt v.columns v.constraints key names → key_of (schemas 0 v.columns) names ≡ given l → result ≡ length l) }
{
    match key {
        // never: a bound statement has a key
        Key::Nowhere => 0,
        Key::Column(_) => 1,
        Key::Constrained(j) => {
            let c = bytes_bundle::part(image_create::constraints(s), 2, j);
            bytes_bundle::parts(image_create::key_names(c), 2)
        }
    }
}

// ---- the whole

fn put_name(out: &mut [u8], at: usize, o: &[u8]) -> usize
    requires { PlainName o.now at (length out.old) }
    ensures { (w : Name) → Holds object_name o.now (plain w) → Wrote out.old at (canonical w) result out.new }
{
    let n = only_name(o);
    let room = folded(n);
    let len = name_text(n).len();
    bytes_wire::put_all(out, at, &room[..len])
}

// What follows the code: a table whose key stands at `key`.
fn put_table(s: &[u8], key: Key, out: &mut [u8]) -> usize
    requires { CreateWithin s.now × Writable s.now key (length out.old) }
    ensures { (v : CreateTable) (w : Name) (names : Option (List Text)) (l : List ColumnId) → Holds create s.now v → v.name ≡ plain w
        → KeyAt v.columns v.constraints key names → key_of (schemas 0 v.columns) names ≡ given l
        → Wrote out.old 1 (create_table.write (table_of w v.columns l)) result out.new }
{
    let ids = key_ids(s, key);
    let n = key_len(s, key);
    let columns = put_name(out, 17, image_create::table_name(s));
    let key_list = put_columns(out, columns, image_create::columns(s), ids, n);
    let end = put_ids(out, key_list, ids, n);
    put_head3(out, 1, columns - 17, key_list - columns, end - key_list);
    end
}

// The whole image: it answers where the image ends.
pub fn write_create_table(c: &[u8], s: &[u8], out: &mut [u8]) -> usize
    requires { CreateWithin s.now × Bindable create bound_statement analyze_create_table c.now s.now out.old }
    ensures { (cat : Catalogue) (v : CreateTable) (b : BoundStatement) → Holds catalogue c.now cat → Holds create s.now v
        → analyze_create_table cat v ≡ given b → Wrote out.old 0 (bound_statement.write b) result out.new }
{
    // no column of a bound statement repeats a name
    match find_key(s, None) {
        Ok(key) => {
            put_byte(out, 0, 0);
            put_table(s, key, out)
        }
        // never: the statement is bound
        Err(_) => 0,
    }
}
