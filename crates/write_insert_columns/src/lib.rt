// The target columns of an INSERT, written: a list of references to columns.
#![tactic(auto)]

ghost use Rattle.bytes_format.proofs.Formats.{list_of};
ghost use Rattle.bytes_bundle.specs.Held.{Holds};
ghost use Rattle.image_catalogue.specs.Layout.{table};
ghost use Rattle.image_parts.specs.Layout.{name};
ghost use Rattle.image_bound.specs.Columns.{bound_column_ref};
ghost use Rattle.rules.specs.Answers.{each};
ghost use Rattle.rules.specs.Tables.{TableSchema};
ghost use Rattle.bind_repeats.specs.Entries.{AllShort};
ghost use Rattle.bind_repeats.specs.declared.Of.TheVariants as of;
ghost use Rattle.bind_table.specs.Short.{ShortText};
ghost use Rattle.write_insert_rows.specs.Listing.{Puts};
ghost use Rattle.write_insert_columns.specs.Refs.{target, TargetGives, TargetsGive};

use bind_insert_columns::find_target;
use image_catalogue::table_id;
use write_expression::columns::put_found;
use write_insert_rows::put_length;

// The column that a name of the statement stands for.
fn put_target(out: &mut [u8], at: usize, t: &[u8], n: &[u8]) -> usize
    requires { ShortText n.now × TargetGives t.now n.now at out.old }
    ensures { (v : TableSchema) → Holds table t.now v → Puts name n.now (target v) bound_column_ref out.old at result out.new }
{
    match find_target(t, n) {
        Some(c) => put_found(out, at, table_id(t), c),
        // never: the name is a column's
        None => at,
    }
}

// How many columns, the length of each, the columns.
pub fn put_targets(out: &mut [u8], at: usize, t: &[u8], names: &[u8]) -> usize
    requires { AllShort of.Names names.now × TargetsGive t.now names.now at out.old }
    ensures { (v : TableSchema) → Holds table t.now v
        → Puts (list_of 2 name) names.now (each (target v)) (list_of 4 bound_column_ref) out.old at result out.new }
{
    let n = bytes_bundle::parts(names, 2);
    let start = put_length(out, at, n);
    let mut lengths = start;
    let mut to = start + 4 * n;
    for name in bytes_bundle::iter(names, 2) {
        let next = put_target(out, to, t, name);
        lengths = put_length(out, lengths, next - to);
        to = next;
    }
    to
}
