// Whether the tables of an image are sound: no name and no id twice, and keys of columns that are there.
#![tactic(auto)]

ghost use Rattle.std.specs.Prelude.{◌≡◌, List};
ghost use Rattle.bytes_format.proofs.Formats.{alone, list_of};
ghost use Rattle.bytes_bundle.specs.Bundle.{is_there};
ghost use Rattle.image_value.specs.Parts.{column_id, column_schema};
ghost use Rattle.rules.specs.declared.ColumnId.{ColumnId};
ghost use Rattle.rules.specs.Lists.{all};
ghost use Rattle.rules.specs.Tables.{ColumnSchema, TableSchema, Catalogue, is_key_column, sound_table, sound};
ghost use Rattle.image_catalogue.specs.Layout.{table, catalogue};
ghost use Rattle.bytes_bundle.specs.Held.{Holds, Is};
ghost use Rattle.catalogue_sound.specs.Sound.{has_id, key_column, KeyedBy};

use catalogue_repeats::By;
use rules::ColumnId;

// Whether a column's id is not 0.
fn is_numbered(c: &[u8]) -> bool
    requires { Is (column_schema 2) c.now }
    ensures { (v : ColumnSchema) → Holds (column_schema 2) c.now v → result ≡ has_id v }
{
    image_catalogue::column_id(c).0 != 0
}

fn are_numbered(s: &[u8]) -> bool
    requires { Is (list_of 2 (column_schema 2)) s.now }
    ensures { (cs : List ColumnSchema) → Holds (list_of 2 (column_schema 2)) s.now cs → result ≡ all has_id cs }
{
    bytes_bundle::iter(s, 2).all(is_numbered)
}

// Whether a column has this id and is not nullable, as a key's columns are.
fn fits_key(c: &[u8], id: ColumnId) -> bool
    requires { Is (column_schema 2) c.now }
    ensures { (v : ColumnSchema) → Holds (column_schema 2) c.now v → result ≡ key_column id v }
{
    image_catalogue::column_id(c) == id && !image_catalogue::column_nullable(c)
}

fn is_key_column(s: &[u8], id: ColumnId) -> bool
    requires { Is (list_of 2 (column_schema 2)) s.now }
    ensures { (cs : List ColumnSchema) → Holds (list_of 2 (column_schema 2)) s.now cs → result ≡ is_key_column cs id }
{
    bytes_bundle::iter(s, 2).any(|c| fits_key(c, id))
}

// Whether an id of a key is that of a column that is not nullable.
fn is_key_id(p: &[u8], list: &[u8]) -> bool
    requires { Is (alone column_id) p.now × Is (list_of 2 (column_schema 2)) list.now }
    ensures { (k : ColumnId) → Holds (alone column_id) p.now k → KeyedBy list.now (λ cs. result ≡ is_key_column cs k) }
{
    is_key_column(list, image_catalogue::key_id(p))
}

fn are_key_ids(s: &[u8], list: &[u8]) -> bool
    requires { Is (list_of 2 (alone column_id)) s.now × Is (list_of 2 (column_schema 2)) list.now }
    ensures { (ids : List ColumnId) → Holds (list_of 2 (alone column_id)) s.now ids → KeyedBy list.now (λ cs. result ≡ all (is_key_column cs) ids) }
{
    bytes_bundle::iter(s, 2).all(|p| is_key_id(p, list))
}

// Column names distinct, ids distinct and nonzero; the key not empty, its ids distinct, present and of columns not nullable.
pub fn is_sound_table(t: &[u8]) -> bool
    requires { Is table t.now }
    ensures { (v : TableSchema) → Holds table t.now v → result ≡ sound_table v }
{
    let list = image_catalogue::columns(t);
    if !catalogue_repeats::are_distinct(list, By::Name) {
        return false;
    }
    if !catalogue_repeats::are_distinct(list, By::Id) {
        return false;
    }
    if !are_numbered(list) {
        return false;
    }
    let ids = image_catalogue::key(t);
    if bytes_bundle::parts(ids, 2) == 0 {
        return false;
    }
    if !catalogue_repeats::are_distinct(ids, By::Whole) {
        return false;
    }
    are_key_ids(ids, list)
}

fn are_sound_tables(s: &[u8]) -> bool
    requires { Is (list_of 2 table) s.now }
    ensures { (ts : Catalogue) → Holds (list_of 2 table) s.now ts → result ≡ all sound_table ts }
{
    bytes_bundle::iter(s, 2).all(is_sound_table)
}

// Table names distinct, ids distinct, and each table sound.
pub fn is_sound(c: &[u8]) -> bool
    requires { Is (list_of 2 table) c.now }
    ensures { (ts : Catalogue) → Holds (list_of 2 table) c.now ts → result ≡ sound ts }
{
    if !catalogue_repeats::are_distinct(c, By::Name) {
        return false;
    }
    if !catalogue_repeats::are_distinct(c, By::Id) {
        return false;
    }
    are_sound_tables(c)
}

// Whether bytes are the image of a catalogue.
pub fn is_catalogue(s: &[u8]) -> bool
    ensures { result ≡ is_there (catalogue.read s.now) }
{
    if !image_catalogue::are_tables(s) {
        return false;
    }
    is_sound(s)
}
