// CREATE TABLE over a catalogue: its columns in their order, then its constraints, then the names of its key.
#![tactic(auto)]

ghost use Rattle.std.specs.Prelude.{◌≡◌, cond, ◌&&◌, List, [], map, ◌≤◌, length};
ghost use Rattle.std.proofs.Math.Option.{Option, some};
ghost use Rattle.bytes_format.proofs.Formats.{list_of};
ghost use Rattle.bytes_bundle.specs.Held.{Is, Holds};
ghost use Rattle.image_bound.specs.Layout.{bound_statement};
ghost use Rattle.image_catalogue.specs.Layout.{catalogue};
ghost use Rattle.image_parts.specs.Layout.{name, option, column_definition, constraint, create};
ghost use Rattle.bind_options.specs.Steps.{state_of, step_of};
ghost use Rattle.bind_repeats.specs.declared.Of.TheVariants as of;
ghost use Rattle.bind_repeats.specs.Entries.{ShortIn, FindsRepeat};
ghost use Rattle.bind_table.specs.Told.{sized};
ghost use Rattle.rules.specs.Lists.{Text};
ghost use Rattle.rules.specs.Analyze.{no_options, options, analyze_create_table, key_ids};
ghost use Rattle.rules.specs.Names.{canonical};
ghost use Rattle.rules.specs.Statements.{Name, ColumnOption, ColumnDefinition, Constraint, CreateTable};
ghost use Rattle.rules.specs.Tables.{Catalogue};
ghost use Rattle.bind_create.specs.declared.Key.TheVariants as standing;
ghost use Rattle.bind_create.specs.Defined.{one_option, finish_column, judge_column, schemas, key_of, key_table, define_table, room_for};
ghost use Rattle.bind_create.specs.Keys.{has_key, inlined, constrained, KeyAt, ReadsColumns, ReadsConstraints, ReadsKey, counted, FindsColumn};
ghost use Rattle.bind_create.specs.Within.{CreateWithin, FewColumns, FewNames, PlaceIn, KeyIn};

use bind_options::OptionState;
use bind_repeats::{Of, are_alike_names, is_at};
use bind_table::new_table_name;
use image_bound::bundles::ids_len;
use image_bound::columns::column_schema_len;
use image_parts::names::name_text;
use rules::{Class, Refusal};

// Where the key stands: at a column, or in a constraint.
#[derive(Clone, Copy)]
pub enum Key {
    Nowhere,
    Column(usize),
    Constrained(usize),
}

// ---- a column

fn take_option(state: OptionState, o: &[u8]) -> Result<OptionState, Class>
    requires { Is option o.now }
    ensures { (v : ColumnOption) → Holds option o.now v → step_of result ≡ one_option (state_of state) v }
{
    if image_create::option_named(o) {
        return Err(Class::UnsupportedSql);
    }
    let kind = image_create::option_kind(o);
    if kind == 0 {
        return state.null();
    }
    if kind == 1 {
        return state.not_null();
    }
    if kind == 2 {
        return state.key();
    }
    Err(Class::UnsupportedSql)
}

pub fn take_options(s: &[u8]) -> Result<OptionState, Class>
    requires { Is (list_of 2 option) s.now }
    ensures { (os : List ColumnOption) → Holds (list_of 2 option) s.now os → step_of result ≡ options no_options os }
{
    let mut state = bind_options::start();
    for o in bytes_bundle::iter(s, 2) {
        state = take_option(state, o)?;
    }
    Ok(state)
}

fn is_second(key: Key, is_key: bool) -> bool
    ensures { result ≡ (is_key && has_key key) }
{
    is_key && !matches!(key, Key::Nowhere)
}

fn inline_key(key: Key, is_key: bool, i: usize) -> Key
    ensures { result ≡ cond is_key (standing.Column i) key }
{
    if is_key {
        return Key::Column(i);
    }
    key
}

// What is tested of column i behind its options.
fn finish_column(d: &[u8], i: usize, key: Key, state: OptionState) -> Result<Key, Class>
    requires { Is column_definition d.now }
    ensures { (v : ColumnDefinition) → Holds column_definition d.now v → result ≡ inlined i key (finish_column (has_key key) (state_of state) v) }
{
    if state.is_refused_key() {
        return Err(Class::ConstraintViolation);
    }
    let is_key = state.key;
    if is_second(key, is_key) {
        return Err(Class::ConstraintViolation);
    }
    if image_create::type_code(d) == 3 {
        return Err(Class::UnsupportedSql);
    }
    Ok(inline_key(key, is_key, i))
}

fn define_column(d: &[u8], i: usize, key: Key, repeated: bool) -> Result<Key, Class>
    requires { Is column_definition d.now }
    ensures { (v : ColumnDefinition) → Holds column_definition d.now v → result ≡ inlined i key (judge_column repeated (has_key key) v) }
{
    if image_create::collation(d) {
        return Err(Class::UnsupportedSql);
    }
    if repeated {
        return Err(Class::ConstraintViolation);
    }
    let state = take_options(image_create::options(d))?;
    finish_column(d, i, key, state)
}

// The columns, of which the one at `place` is the first that repeats a name.
fn define_columns(s: &[u8], place: Option<usize>) -> Result<Key, Class>
    requires { Is (list_of 2 column_definition) s.now × FindsRepeat of.Columns s.now place }
    ensures { (cs : List ColumnDefinition) → Holds (list_of 2 column_definition) s.now cs → ReadsColumns cs result }
{
    let mut key = Key::Nowhere;
    for (i, column) in bytes_bundle::iter(s, 2).enumerate() {
        key = define_column(column, i, key, is_at(place, i))?;
    }
    Ok(key)
}

// ---- constraints

fn register(c: &[u8], j: usize, key: Key) -> Result<Key, Class>
    requires { Is constraint c.now }
    ensures { (v : Constraint) → Holds constraint c.now v → result ≡ constrained j (has_key key) v }
{
    if !image_create::is_primary_key(c) {
        return Err(Class::UnsupportedSql);
    }
    if image_create::key_marked(c) {
        return Err(Class::UnsupportedSql);
    }
    if bytes_bundle::parts(image_create::key_names(c), 2) == 0 {
        return Err(Class::ConstraintViolation);
    }
    if is_second(key, true) {
        return Err(Class::ConstraintViolation);
    }
    Ok(Key::Constrained(j))
}

fn register_all(s: &[u8], before: Key) -> Result<Key, Class>
    requires { Is (list_of 2 constraint) s.now }
    ensures { (cs : List ColumnDefinition) (ds : List Constraint) (names : Option (List Text)) → Holds (list_of 2 constraint) s.now ds
        → KeyAt cs ds before names → ReadsConstraints cs ds names result }
{
    let mut key = before;
    for (j, c) in bytes_bundle::iter(s, 2).enumerate() {
        key = register(c, j, key)?;
    }
    Ok(key)
}

// Where the key of a CREATE TABLE stands, once its columns and its constraints are read.
pub fn find_key(s: &[u8], place: Option<usize>) -> Result<Key, Class>
    requires { Is create s.now × PlaceIn s.now place }
    ensures { (v : CreateTable) → Holds create s.now v → ReadsKey v result }
{
    let key = define_columns(image_create::columns(s), place)?;
    register_all(image_create::constraints(s), key)
}

// ---- the names of the key

// The first column of a name.
pub fn column_called(s: &[u8], n: &[u8]) -> Option<usize>
    requires { FewColumns s.now × ShortIn name some n.now }
    ensures { (cs : List ColumnDefinition) (w : Name) → Holds (list_of 2 column_definition) s.now cs → Holds name n.now w
        → FindsColumn cs (canonical w) result }
{
    for (i, d) in bytes_bundle::iter(s, 2).enumerate() {
        if are_alike_names(n, image_create::column_name(d)) {
            return Some(i);
        }
    }
    None
}

// How many ids some names of a key stand for: as many as there are, if each is a column's and none is given twice.
fn count_names(columns: &[u8], names: &[u8]) -> Result<usize, Refusal>
    requires { FewColumns columns.now × FewNames names.now }
    ensures { (cs : List ColumnDefinition) (ns : List Name) → Holds (list_of 2 column_definition) columns.now cs
        → Holds (list_of 2 name) names.now ns → result ≡ counted (key_ids (schemas 0 cs) [] (map canonical ns)) }
{
    let place = bind_repeats::first_repeated(names, Of::Names);
    for (k, part) in bytes_bundle::iter(names, 2).enumerate() {
        column_called(columns, part).ok_or(Class::SchemaMismatch)?;
        if is_at(place, k) {
            return Err(Refusal {
                class: Class::ConstraintViolation,
            });
        }
    }
    Ok(bytes_bundle::parts(names, 2))
}

fn count_key(s: &[u8], key: Key) -> Result<usize, Refusal>
    requires { CreateWithin s.now × KeyIn s.now key }
    ensures { (v : CreateTable) (names : Option (List Text)) → Holds create s.now v → KeyAt v.columns v.constraints key names
        → result ≡ counted (key_of (schemas 0 v.columns) names) }
{
    match key {
        Key::Nowhere => Err(Refusal {
            class: Class::ConstraintViolation,
        }),
        Key::Column(_) => Ok(1),
        Key::Constrained(j) => {
            let c = bytes_bundle::part(image_create::constraints(s), 2, j);
            count_names(image_create::columns(s), image_create::key_names(c))
        }
    }
}

// ---- the whole

// How long the list of the columns is.
fn columns_len(s: &[u8]) -> usize
    requires { FewColumns s.now }
    ensures { ((cs : List ColumnDefinition) → Holds (list_of 2 column_definition) s.now cs → result ≡ room_for cs) × (result ≤ 16384) }
{
    let mut sum = 4;
    for column in bytes_bundle::iter(s, 2) {
        let text = name_text(image_create::column_name(column));
        sum += 4 + column_schema_len(text.len());
    }
    sum
}

// A table whose key stands at `key` and whose name has `name` bytes.
fn measure_keyed(s: &[u8], name: usize, key: Key) -> Result<usize, Refusal>
    requires { CreateWithin s.now × KeyIn s.now key × (name ≤ 128) }
    ensures { (v : CreateTable) (t : Text) (names : Option (List Text)) → Holds create s.now v → length t ≡ name
        → KeyAt v.columns v.constraints key names → result ≡ sized bound_statement (key_table t (schemas 0 v.columns) names) }
{
    let n = count_key(s, key)?;
    Ok(17 + name + columns_len(image_create::columns(s)) + ids_len(n))
}

// A table whose name has `name` bytes.
fn measure(s: &[u8], name: usize) -> Result<usize, Refusal>
    requires { CreateWithin s.now × (name ≤ 128) }
    ensures { (v : CreateTable) (t : Text) → Holds create s.now v → length t ≡ name → result ≡ sized bound_statement (define_table v t) }
{
    let columns = image_create::columns(s);
    if bytes_bundle::parts(columns, 2) == 0 {
        return Err(Refusal {
            class: Class::ConstraintViolation,
        });
    }
    let key = find_key(s, bind_repeats::first_repeated(columns, Of::Columns))?;
    measure_keyed(s, name, key)
}

// How long the bound statement's image is, or the refusal.
pub fn analyze_create_table(c: &[u8], s: &[u8]) -> Result<usize, Refusal>
    requires { Is catalogue c.now × CreateWithin s.now }
    ensures { (cat : Catalogue) (v : CreateTable) → Holds catalogue c.now cat → Holds create s.now v
        → result ≡ sized bound_statement (analyze_create_table cat v) }
{
    if image_create::if_not_exists(s) {
        return Err(Refusal {
            class: Class::UnsupportedSql,
        });
    }
    if image_create::as_query(s) {
        return Err(Refusal {
            class: Class::UnsupportedSql,
        });
    }
    if image_create::other_feature(s) {
        return Err(Refusal {
            class: Class::UnsupportedSql,
        });
    }
    let name = new_table_name(c, image_create::table_name(s))?;
    measure(s, name)
}
