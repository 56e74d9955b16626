// INSERT over a catalogue, measured: how long its bound image is, or the refusal.
#![tactic(auto)]

ghost use Rattle.std.specs.Prelude.{◌≡◌, ◌≤◌, IfOk};
ghost use Rattle.bytes_format.proofs.Formats.{list_of};
ghost use Rattle.bytes_bundle.specs.Held.{Is, Holds};
ghost use Rattle.image_value.specs.Parts.{value};
ghost use Rattle.image_catalogue.specs.Layout.{table, catalogue};
ghost use Rattle.image_parts.specs.Layout.{insertion};
ghost use Rattle.image_bound.specs.Layout.{bound_statement};
ghost use Rattle.rules.specs.Analyze.{analyze_insert};
ghost use Rattle.rules.specs.Statements.{Insert};
ghost use Rattle.rules.specs.Tables.{TableSchema, Catalogue};
ghost use Rattle.bind_table.specs.Told.{sized};
ghost use Rattle.bind_insert_rows.specs.Values.{Measures};
ghost use Rattle.bind_insert.specs.Within.{InsertWithin};
ghost use Rattle.bind_insert.specs.Inserts.{insert_rows, insert_into};

use bind_insert_columns::{Need, bind_columns, lacks};
use bind_insert_rows::source_len;
use bind_table::name_table;
use image_bound::columns::table_ref_len;
use image_insert::is_modified;
use rules::{Class, Refusal};

// What follows the n target columns.
fn measure_rows(t: &[u8], i: &[u8], codes: &[u8; 64], n: usize) -> Result<usize, Refusal>
    requires { Is table t.now × (Is insertion i.now × (InsertWithin i.now × (n ≤ 64))) }
    ensures { IfOk result (λ k. k ≤ 300000000000)
        × ((v : TableSchema) → Holds table t.now v → Measures codes.now n insertion i.now (list_of 4 (list_of 4 value)) (insert_rows v) result) }
{
    let names = image_insert::columns(i);
    if lacks(t, names, Need::Key) {
        return Err(Refusal {
            class: Class::ConstraintViolation,
        });
    }
    if lacks(t, names, Need::NotNull) {
        return Err(Refusal {
            class: Class::ConstraintViolation,
        });
    }
    source_len(i, codes, n)
}

fn analyze_into(t: &[u8], i: &[u8]) -> Result<usize, Refusal>
    requires { Is table t.now × (Is insertion i.now × InsertWithin i.now) }
    ensures { (v : TableSchema) (w : Insert) → Holds table t.now v → Holds insertion i.now w → result ≡ sized bound_statement (insert_into v w) }
{
    let names = image_insert::columns(i);
    let n = bytes_bundle::parts(names, 2);
    if n == 0 {
        return Err(Refusal {
            class: Class::UnsupportedSql,
        });
    }
    let mut codes = [0u8; 64];
    let targets = bind_columns(t, names, &mut codes)?;
    let rows = measure_rows(t, i, &codes, n)?;
    Ok(17 + table_ref_len(image_catalogue::table_name(t).len()) + targets + rows)
}

pub fn analyze_insert(c: &[u8], i: &[u8]) -> Result<usize, Refusal>
    requires { Is catalogue c.now × (Is insertion i.now × InsertWithin i.now) }
    ensures { (cat : Catalogue) (v : Insert) → Holds catalogue c.now cat → Holds insertion i.now v → result ≡ sized bound_statement (analyze_insert cat v) }
{
    if is_modified(i) {
        return Err(Refusal {
            class: Class::UnsupportedSql,
        });
    }
    match name_table(c, image_insert::table_name(i)) {
        Ok(t) => analyze_into(t, i),
        Err(r) => Err(r),
    }
}
