// The top sizes of a catalogue: its bytes, its tables, the columns of each, its names.
#![tactic(auto)]

ghost use Rattle.std.specs.Prelude.{◌≡◌, List, length};
ghost use Rattle.bytes_format.proofs.Formats.{list_of};
ghost use Rattle.image_value.specs.Parts.{column_schema};
ghost use Rattle.rules.specs.Lists.{all};
ghost use Rattle.rules.specs.Tables.{ColumnSchema, TableSchema, Catalogue};
ghost use Rattle.rules.specs.Limits.{table_within, catalogue_within};
ghost use Rattle.image_catalogue.specs.Layout.{table, catalogue};
ghost use Rattle.bytes_bundle.specs.Held.{Holds, Is};
ghost use Rattle.catalogue_limits.specs.Within.{column_within};

fn is_column_within(c: &[u8]) -> bool
    requires { Is (column_schema 2) c.now }
    ensures { (v : ColumnSchema) → Holds (column_schema 2) c.now v → result ≡ column_within v }
{
    let name = image_catalogue::column_name(c);
    name.len() <= 128
}

fn are_columns_within(s: &[u8]) -> bool
    requires { Is (list_of 2 (column_schema 2)) s.now }
    ensures { (cs : List ColumnSchema) → Holds (list_of 2 (column_schema 2)) s.now cs → result ≡ all column_within cs }
{
    bytes_bundle::iter(s, 2).all(is_column_within)
}

fn is_table_within(t: &[u8]) -> bool
    requires { Is table t.now }
    ensures { (v : TableSchema) → Holds table t.now v → result ≡ table_within v }
{
    let name = image_catalogue::table_name(t);
    if 128 < name.len() {
        return false;
    }
    let list = image_catalogue::columns(t);
    if 64 < bytes_bundle::parts(list, 2) {
        return false;
    }
    if !are_columns_within(list) {
        return false;
    }
    bytes_bundle::parts(image_catalogue::key(t), 2) <= 64
}

fn are_tables_within(s: &[u8]) -> bool
    requires { Is (list_of 2 table) s.now }
    ensures { (ts : Catalogue) → Holds (list_of 2 table) s.now ts → result ≡ all table_within ts }
{
    bytes_bundle::iter(s, 2).all(is_table_within)
}

// Whether a catalogue is within the top sizes.
pub fn catalogue_within(s: &[u8]) -> bool
    requires { Is catalogue s.now }
    ensures { (v : Catalogue) → Holds catalogue s.now v → result ≡ catalogue_within (length s.now) v }
{
    if 65536 < s.len() {
        return false;
    }
    if 256 < bytes_bundle::parts(s, 2) {
        return false;
    }
    are_tables_within(s)
}
