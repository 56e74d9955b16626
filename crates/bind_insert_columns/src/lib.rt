// The target columns of an INSERT, and the columns that it must not leave out.
#![tactic(auto)]

ghost use Rattle.std.specs.Prelude.{◌≡◌, Bool, List, ◌≤◌, length, IfOk};
ghost use Rattle.bytes_format.proofs.Formats.{list_of};
ghost use Rattle.bytes_bundle.specs.Held.{Is, Holds};
ghost use Rattle.image_value.specs.Parts.{data_type_no, column_schema};
ghost use Rattle.image_catalogue.specs.Layout.{table};
ghost use Rattle.catalogue_lookup.specs.Finds.{FindsColumn};
ghost use Rattle.image_parts.specs.Layout.{name};
ghost use Rattle.rules.specs.Lists.{same, any};
ghost use Rattle.rules.specs.Names.{canonical};
ghost use Rattle.rules.specs.Statements.{Name};
ghost use Rattle.rules.specs.Tables.{ColumnSchema, TableSchema};
ghost use Rattle.bind_repeats.specs.declared.Of.TheVariants as of;
ghost use Rattle.bind_repeats.specs.Entries.{AllShort};
ghost use Rattle.bind_table.specs.Short.{ShortText};
ghost use Rattle.bind_insert_columns.specs.Coded.{code_of};
ghost use Rattle.bind_insert_columns.specs.Columns.{Targets, is_among, needed, lacking, ColumnsBound};

use bind_repeats::{Of, first_repeated, is_at};
use catalogue_lookup::{Column, find_column, in_key};
use image_bound::columns::column_ref_len;
use image_catalogue::{column_id, column_name, column_nullable};
use image_parts::names::{name_is_quoted, name_text};
use rules::{Class, DataType, Refusal};
use text_names::is_called;

// What makes a column one that an INSERT must not leave out.
#[derive(Clone, Copy)]
pub enum Need {
    Key,
    NotNull,
}

fn type_code(ty: DataType) -> u8
    ensures { (result ≡ data_type_no ty) × (result ≤ 2) }
{
    match ty {
        DataType::Int => 0,
        DataType::Text => 1,
        DataType::Bool => 2,
    }
}

// A column's byte.
fn code_of(ty: DataType, nullable: bool) -> u8
    ensures { result ≡ code_of ty nullable }
{
    let code = type_code(ty);
    if nullable {
        return code + 4;
    }
    code
}

// The column that a name of the statement stands for.
pub fn find_target<'a>(t: &'a [u8], n: &[u8]) -> Option<Column<'a>>
    requires { Is table t.now × (Is name n.now × ShortText n.now) }
    ensures { (v : Name) → Holds name n.now v → FindsColumn t.now (canonical v) result }
{
    find_column(t, name_is_quoted(n), name_text(n))
}

// Each column in turn, its byte into the array. A name that repeats an earlier one is refused in its turn.
pub fn bind_columns(t: &[u8], names: &[u8], codes: &mut [u8; 64]) -> Result<usize, Refusal>
    requires { Is table t.now × (Targets names.now × (length codes.old ≡ 64)) }
    ensures { IfOk result (λ k. k ≤ 10116)
        × ((v : TableSchema) (ns : List Name) → Holds table t.now v → Holds (list_of 2 name) names.now ns → ColumnsBound v ns codes.new result) }
{
    let place = first_repeated(names, Of::Names);
    let mut total = 4;
    for (i, part) in bytes_bundle::iter(names, 2).enumerate() {
        if is_at(place, i) {
            return Err(Refusal {
                class: Class::ConstraintViolation,
            });
        }
        let Some(c) = find_target(t, part) else {
            return Err(Refusal {
                class: Class::SchemaMismatch,
            });
        };
        codes[i] = code_of(c.ty, c.nullable);
        total += 4 + column_ref_len(c.name.len());
    }
    Ok(total)
}

fn calls(n: &[u8], other: &[u8]) -> bool
    requires { Is name n.now × ShortText n.now }
    ensures { (v : Name) → Holds name n.now v → result ≡ same other.now (canonical v) }
{
    is_called(name_is_quoted(n), name_text(n), other)
}

// Whether one of the names is a column's.
fn has_name(names: &[u8], other: &[u8]) -> bool
    requires { AllShort of.Names names.now }
    ensures { (ns : List Name) → Holds (list_of 2 name) names.now ns → result ≡ is_among other.now ns }
{
    for part in bytes_bundle::iter(names, 2) {
        if calls(part, other) {
            return true;
        }
    }
    false
}

fn is_needed(t: &[u8], c: &[u8], need: Need) -> bool
    requires { Is table t.now × Is (column_schema 2) c.now }
    ensures { (v : TableSchema) (w : ColumnSchema) → Holds table t.now v → Holds (column_schema 2) c.now w → result ≡ needed need v w }
{
    match need {
        Need::Key => in_key(t, column_id(c)),
        Need::NotNull => !column_nullable(c),
    }
}

fn is_lacking(t: &[u8], c: &[u8], names: &[u8], need: Need) -> bool
    requires { Is table t.now × (Is (column_schema 2) c.now × AllShort of.Names names.now) }
    ensures { (v : TableSchema) (w : ColumnSchema) (ns : List Name) → Holds table t.now v → Holds (column_schema 2) c.now w
        → Holds (list_of 2 name) names.now ns → result ≡ lacking need v ns w }
{
    if !is_needed(t, c, need) {
        return false;
    }
    !has_name(names, column_name(c))
}

// Whether a column of the key, or one that is not nullable, is left out.
pub fn lacks(t: &[u8], names: &[u8], need: Need) -> bool
    requires { Is table t.now × AllShort of.Names names.now }
    ensures { (v : TableSchema) (ns : List Name) → Holds table t.now v → Holds (list_of 2 name) names.now ns → result ≡ any (lacking need v ns) v.columns }
{
    let list = image_catalogue::columns(t);
    bytes_bundle::iter(list, 2).any(|c| is_lacking(t, c, names, need))
}
