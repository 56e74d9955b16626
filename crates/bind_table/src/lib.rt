// What the analysis of the statements shares: what it answers, and the table that a statement names.
#![tactic(auto)]

ghost use Rattle.std.specs.Prelude.{◌≡◌};
ghost use Rattle.bytes_format.proofs.Formats.{list_of, text};
ghost use Rattle.bytes_bundle.specs.Held.{Is, Holds};
ghost use Rattle.image_catalogue.specs.Layout.{table};
ghost use Rattle.catalogue_lookup.specs.Finds.{FindsTable};
ghost use Rattle.image_parts.specs.Layout.{name, object_name, table_with_joins};
ghost use Rattle.rules.specs.Analyze.{resolve_direct_table};
ghost use Rattle.rules.specs.Names.{canonical};
ghost use Rattle.rules.specs.Statements.{Name, ObjectName, TableWithJoins};
ghost use Rattle.rules.specs.Tables.{Catalogue};
ghost use Rattle.bind_table.specs.Told.{sized, ResolvedAs};
ghost use Rattle.bind_table.specs.Steps.{classed};
ghost use Rattle.bind_table.specs.Short.{ShortText, ShortName, ShortTable};
ghost use Rattle.bind_table.specs.Tables.{named_table, new_name};

use catalogue_lookup::find_table;
use image_parts::names::{name_is_quoted, name_text, object_name_code, only_name};
use image_parts::table::{
    has_joins, relation_code, relation_is_marked, relation_name, relation_of,
};
use rules::{Class, Refusal};

// The table that a name of one part stands for.
fn find_named<'a>(c: &'a [u8], n: &[u8]) -> Option<&'a [u8]>
    requires { Is (list_of 2 table) c.now × (Is name n.now × ShortText n.now) }
    ensures { (v : Name) → Holds name n.now v → FindsTable c.now (canonical v) result }
{
    find_table(c, name_is_quoted(n), name_text(n))
}

// The table that an object name stands for: its bytes in the catalogue, or the refusal.
pub fn name_table<'a>(c: &'a [u8], n: &[u8]) -> Result<&'a [u8], Refusal>
    requires { Is (list_of 2 table) c.now × (Is object_name n.now × ShortName n.now) }
    ensures { (cat : Catalogue) (o : ObjectName) → Holds (list_of 2 table) c.now cat → Holds object_name n.now o
        → ResolvedAs (named_table cat o) result }
{
    if object_name_code(n) == 0 {
        return Err(Class::UnsupportedSql.into());
    }
    find_named(c, only_name(n)).ok_or(Class::SchemaMismatch.into())
}

// The one table of a SELECT, an UPDATE or a DELETE.
pub fn resolve_direct_table<'a>(c: &'a [u8], w: &[u8]) -> Result<&'a [u8], Refusal>
    requires { Is (list_of 2 table) c.now × (Is table_with_joins w.now × ShortTable w.now) }
    ensures { (cat : Catalogue) (v : TableWithJoins) → Holds (list_of 2 table) c.now cat → Holds table_with_joins w.now v
        → ResolvedAs (resolve_direct_table cat v) result }
{
    if has_joins(w) {
        return Err(Class::UnsupportedSql.into());
    }
    let s = relation_of(w);
    if relation_code(s) == 0 {
        return Err(Class::UnsupportedSql.into());
    }
    if relation_is_marked(s) {
        return Err(Class::UnsupportedSql.into());
    }
    name_table(c, relation_name(s))
}

// How long the name of a table to be made is: a plain one, of no table that is there.
// A part of the bound statement's image is measured before a byte of it is written.
pub fn new_table_name(c: &[u8], n: &[u8]) -> Result<usize, Refusal>
    requires { Is (list_of 2 table) c.now × (Is object_name n.now × ShortName n.now) }
    ensures { (cat : Catalogue) (o : ObjectName) → Holds (list_of 2 table) c.now cat → Holds object_name n.now o
        → result ≡ sized text (new_name cat o) }
{
    if object_name_code(n) == 0 {
        return Err(Refusal {
            class: Class::UnsupportedSql,
        });
    }
    let name = only_name(n);
    match find_named(c, name) {
        Some(_) => Err(Refusal {
            class: Class::ConstraintViolation,
        }),
        None => Ok(name_text(name).len()),
    }
}
