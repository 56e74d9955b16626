// DELETE over a catalogue: its table, then its condition.
#![tactic(auto)]

ghost use Rattle.std.specs.Prelude.{◌≡◌};
ghost use Rattle.std.proofs.Math.Option.{Option};
ghost use Rattle.bytes_format.proofs.Formats.{list_of};
ghost use Rattle.bytes_bundle.specs.Held.{Is, Holds};
ghost use Rattle.image_bound.specs.Layout.{bound_statement};
ghost use Rattle.image_catalogue.specs.Layout.{table, catalogue};
ghost use Rattle.bind_where.specs.There.{ShortCondition};
ghost use Rattle.bind_table.specs.Told.{sized, ResolvedAs};
ghost use Rattle.rules.specs.Analyze.{analyze_delete};
ghost use Rattle.rules.specs.Statements.{Delete, Expr};
ghost use Rattle.rules.specs.Tables.{TableSchema, Catalogue};
ghost use Rattle.image_parts.specs.Layout.{condition, deletion};
ghost use Rattle.bind_delete.specs.Deletes.{deleted_table, deleted_rows};
ghost use Rattle.bind_delete.specs.Within.{DeleteWithin};

use bind_table::resolve_direct_table;
use bind_table_ref::table_size;
use bind_where::filter_size;
use image_delete::{
    condition_of, from_code, from_of, has_limit, has_order_by, has_returning, has_tables,
    has_using, table_of,
};
use image_parts::condition::has_condition;
use rules::{Class, Refusal};

// The one table that a DELETE names, which has no clause beside its FROM and its WHERE.
pub fn deleted_table<'a>(c: &'a [u8], d: &[u8]) -> Result<&'a [u8], Refusal>
    requires { Is (list_of 2 table) c.now × DeleteWithin d.now }
    ensures { (cat : Catalogue) (v : Delete) → Holds (list_of 2 table) c.now cat → Holds deletion d.now v
        → ResolvedAs (deleted_table cat v) result }
{
    if has_tables(d) {
        return Err(Class::UnsupportedSql.into());
    }
    if has_using(d) {
        return Err(Class::UnsupportedSql.into());
    }
    if has_returning(d) {
        return Err(Class::UnsupportedSql.into());
    }
    if has_order_by(d) {
        return Err(Class::UnsupportedSql.into());
    }
    if has_limit(d) {
        return Err(Class::UnsupportedSql.into());
    }
    let f = from_of(d);
    let code = from_code(f);
    if code == 0 {
        return Err(Class::UnsupportedSql.into());
    }
    if code == 1 {
        return Err(Class::UnsupportedSql.into());
    }
    resolve_direct_table(c, table_of(f))
}

// How long the bound DELETE over the table t is: a code and the head of a record of two have 13 bytes.
fn delete_size(t: &[u8], e: &[u8]) -> Result<usize, Refusal>
    requires { Is table t.now × ShortCondition e.now }
    ensures { (v : TableSchema) (o : Option Expr) → Holds table t.now v → Holds condition e.now o
        → result ≡ sized bound_statement (deleted_rows v o) }
{
    if !has_condition(e) {
        return Err(Refusal {
            class: Class::UnsupportedSql,
        });
    }
    let n = filter_size(t, e)?;
    Ok(13 + table_size(t) + n)
}

pub fn analyze_delete(c: &[u8], d: &[u8]) -> Result<usize, Refusal>
    requires { Is catalogue c.now × DeleteWithin d.now }
    ensures { (cat : Catalogue) (v : Delete) → Holds catalogue c.now cat → Holds deletion d.now v
        → result ≡ sized bound_statement (analyze_delete cat v) }
{
    match deleted_table(c, d) {
        Ok(t) => delete_size(t, condition_of(d)),
        Err(r) => Err(r),
    }
}
