// SELECT over a catalogue: its table, its items in their order, then its condition.
#![tactic(auto)]

ghost use Rattle.std.specs.Prelude.{◌≡◌, List, ◌+◌, ◌≤◌, IfOk};
ghost use Rattle.std.proofs.Math.Option.{Option};
ghost use Rattle.bytes_format.proofs.Formats.{list_of};
ghost use Rattle.bytes_bundle.specs.Held.{Is, Holds};
ghost use Rattle.image_bound.specs.Columns.{bound_column_ref};
ghost use Rattle.image_bound.specs.Layout.{bound_statement};
ghost use Rattle.image_catalogue.specs.Layout.{table, catalogue};
ghost use Rattle.bind_where.specs.There.{ShortCondition};
ghost use Rattle.bind_table.specs.Short.{ShortText};
ghost use Rattle.bind_table.specs.Told.{sized, ResolvedAs};
ghost use Rattle.rules.specs.Analyze.{item, projection, filter_if_there, analyze_select};
ghost use Rattle.rules.specs.Statements.{Name, Item, column, Select, Query, Expr};
ghost use Rattle.rules.specs.Tables.{ColumnSchema, TableSchema, Catalogue};
ghost use Rattle.image_parts.specs.Layout as layout;
ghost use Rattle.image_value.specs.Parts.{column_schema};
ghost use Rattle.bind_select.specs.Columns.{Calls};
ghost use Rattle.bind_select.specs.Entries.{column_entries};
ghost use Rattle.bind_select.specs.Selects.{selected_table, selected_rows, Filter, added};
ghost use Rattle.bind_select.specs.Within.{QueryWithin, SelectWithin, ItemsWithin, ItemWithin};

use bind_table::resolve_direct_table;
use bind_table_ref::table_size;
use bind_where::filter_size;
use catalogue_lookup::{Column, find_column};
use image_bound::columns::column_ref_len;
use image_bound::fields::count_len;
use image_catalogue::{column_name, columns};
use image_parts::condition::has_condition;
use image_parts::names::{name_is_quoted, name_text};
use image_select::{
    body_code, body_of, column_of, condition_of, from_code, from_of, has_clauses, has_features,
    item_code, items_of, select_of, table_of,
};
use rules::{Class, Refusal};

// The one table that a SELECT reads, which has no clause that is not supported.
pub fn selected_table<'a>(c: &'a [u8], s: &[u8]) -> Result<&'a [u8], Refusal>
    requires { Is (list_of 2 table) c.now × SelectWithin s.now }
    ensures { (cat : Catalogue) (v : Select) → Holds (list_of 2 table) c.now cat → Holds layout.select s.now v
        → ResolvedAs (selected_table cat v) result }
{
    if has_features(s) {
        return Err(Class::UnsupportedSql.into());
    }
    let f = from_of(s);
    if from_code(f) == 0 {
        return Err(Class::UnsupportedSql.into());
    }
    resolve_direct_table(c, table_of(f))
}

// ---- items

// What a column adds to the list: its length and its reference. No name is longer than an image may be.
fn entry_len(name_len: usize) -> usize
    requires { name_len ≤ 65536 }
    ensures { result ≡ 30 + name_len }
{
    count_len() + column_ref_len(name_len)
}

// What all columns of a table add. They are fewer than 65,536, and so no sum wraps.
fn columns_size(s: &[u8]) -> usize
    requires { Is (list_of 2 (column_schema 2)) s.now }
    ensures few { result ≤ 4296802275 }
    ensures told { (cs : List ColumnSchema) → Holds (list_of 2 (column_schema 2)) s.now cs → result ≡ column_entries cs }
{
    let mut sum = 0;
    for column in bytes_bundle::iter(s, 2) {
        let name = column_name(column);
        sum += entry_len(name.len());
    }
    sum
}

pub fn column_called<'a>(t: &'a [u8], n: &[u8]) -> Option<Column<'a>>
    requires { Is table t.now × (Is layout.name n.now × ShortText n.now) }
    ensures { Calls t.now n.now result }
{
    find_column(t, name_is_quoted(n), name_text(n))
}

// What a column adds that is called by its name.
fn column_size(t: &[u8], n: &[u8]) -> Result<usize, Refusal>
    requires { Is table t.now × (Is layout.name n.now × ShortText n.now) }
    ensures few { IfOk result (λ k. k ≤ 4296802275) }
    ensures told { (v : TableSchema) (x : Name) → Holds table t.now v → Holds layout.name n.now x → result ≡ added (item v (column x)) }
{
    match column_called(t, n) {
        Some(c) => Ok(entry_len(c.name.len())),
        None => Err(Refusal {
            class: Class::SchemaMismatch,
        }),
    }
}

// What an item adds: `*` all columns of the table, a name its column.
fn item_size(t: &[u8], i: &[u8]) -> Result<usize, Refusal>
    requires { Is table t.now × ItemWithin i.now }
    ensures few { IfOk result (λ k. k ≤ 4296802275) }
    ensures told { (v : TableSchema) (x : Item) → Holds table t.now v → Holds layout.item i.now x → result ≡ added (item v x) }
{
    let code = item_code(i);
    if code == 0 {
        return Err(Refusal {
            class: Class::UnsupportedSql,
        });
    }
    if code == 1 {
        return Ok(columns_size(columns(t)));
    }
    column_size(t, column_of(i))
}

// How long the list of the bound columns is.
fn projection_size(t: &[u8], s: &[u8]) -> Result<usize, Refusal>
    requires { Is table t.now × ItemsWithin s.now }
    ensures few { IfOk result (λ k. k ≤ 274995345604) }
    ensures told { (v : TableSchema) (xs : List Item) → Holds table t.now v → Holds (list_of 2 layout.item) s.now xs
        → result ≡ sized (list_of 4 bound_column_ref) (projection v xs) }
{
    let mut sum = count_len();
    for item in bytes_bundle::iter(s, 2) {
        sum += item_size(t, item)?;
    }
    Ok(sum)
}

// ---- the whole

// Nothing is bound where there is no condition.
fn filter_if_there(t: &[u8], e: &[u8]) -> Result<usize, Refusal>
    requires { Is table t.now × ShortCondition e.now }
    ensures few { IfOk result (λ k. k ≤ 4294967295) }
    ensures told { (v : TableSchema) (o : Option Expr) → Holds table t.now v → Holds layout.condition e.now o
        → result ≡ sized Filter (filter_if_there v o) }
{
    if !has_condition(e) {
        return Ok(0);
    }
    filter_size(t, e)
}

// How long the bound SELECT over the table t is: a code and the head of a record of three have 17 bytes.
fn select_size(t: &[u8], s: &[u8]) -> Result<usize, Refusal>
    requires { Is table t.now × SelectWithin s.now }
    ensures { (v : TableSchema) (x : Select) → Holds table t.now v → Holds layout.select s.now x
        → result ≡ sized bound_statement (selected_rows v x) }
{
    let projection = projection_size(t, items_of(s))?;
    let filter = filter_if_there(t, condition_of(s))?;
    Ok(17 + table_size(t) + projection + filter)
}

pub fn analyze_select(c: &[u8], q: &[u8]) -> Result<usize, Refusal>
    requires { Is catalogue c.now × QueryWithin q.now }
    ensures { (cat : Catalogue) (v : Query) → Holds catalogue c.now cat → Holds layout.selection q.now v
        → result ≡ sized bound_statement (analyze_select cat v) }
{
    if has_clauses(q) {
        return Err(Refusal {
            class: Class::UnsupportedSql,
        });
    }
    let b = body_of(q);
    if body_code(b) == 0 {
        return Err(Refusal {
            class: Class::UnsupportedSql,
        });
    }
    let s = select_of(b);
    match selected_table(c, s) {
        Ok(t) => select_size(t, s),
        Err(r) => Err(r),
    }
}
