// CREATE TABLE: its columns, their options, and its constraints.
#![tactic(auto)]

ghost use Rattle.std.specs.Prelude.{◌≡◌, Bool, List};
ghost use Rattle.bytes_format.proofs.Formats.{alone, mark, headed, list_of};
ghost use Rattle.bytes_bundle.specs.Bundle.{is_there};
ghost use Rattle.rules.specs.Statements.{Name, ColumnOption, ColumnDefinition, Constraint, primary_key, CreateTable};
ghost use Rattle.image_parts.specs.Layout.{name, object_name, option, option_kind_no, column_type, column_type_no, column_definition, constraint, create};
ghost use Rattle.bytes_bundle.specs.Held.{Is, Holds, Shows};
ghost use Rattle.image_create.specs.Held.{is_key};

use image_parts::heads::{are_marks, behind};
use image_parts::names;

// A mark and a kind.
#[tactic(auto, using(crate::specs::Shapes::is_option_lem))]
pub fn is_option(s: &[u8]) -> bool
    ensures { result ≡ is_there (option.read s.now) }
{
    matches!(s, [named, kind] if *named < 2 && *kind < 5)
}

pub fn are_options(s: &[u8]) -> bool
    ensures { result ≡ is_there ((list_of 2 option).read s.now) }
{
    bytes_bundle::is_bundle(s, 2) && bytes_bundle::iter(s, 2).all(is_option)
}

// One code.
#[tactic(auto, using(crate::specs::Shapes::is_type_lem))]
fn is_type(s: &[u8]) -> bool
    ensures { result ≡ is_there ((alone column_type).read s.now) }
{
    matches!(s, [code] if *code < 4)
}

// A mark, a name, options and a type.
#[tactic(auto, using(crate::specs::Shapes::is_column_definition_lem, bytes_bundle::specs::Laws::is_record_lem))]
pub fn is_column_definition(s: &[u8]) -> bool
    ensures { result ≡ is_there (column_definition.read s.now) }
{
    bytes_bundle::is_record(s, 2, 4)
        && are_marks(bytes_bundle::part(s, 2, 0), 1)
        && names::is_name(bytes_bundle::part(s, 2, 1))
        && are_options(bytes_bundle::part(s, 2, 2))
        && is_type(bytes_bundle::part(s, 2, 3))
}

pub fn are_column_definitions(s: &[u8]) -> bool
    ensures { result ≡ is_there ((list_of 2 column_definition).read s.now) }
{
    bytes_bundle::is_bundle(s, 2) && bytes_bundle::iter(s, 2).all(is_column_definition)
}

// What follows the code of a primary key: a mark and the key's names.
#[tactic(auto, using(crate::specs::Shapes::is_key_lem, bytes_bundle::specs::Heads::rest_lem))]
fn is_key(s: &[u8]) -> bool
    ensures { result ≡ is_there ((headed mark (λ m. list_of 2 name)).read s.now) }
{
    matches!(s, [mark, names @ ..] if *mark < 2 && names::are_names(names))
}

// Code 0: no primary key, and nothing of it is held. Code 1: a primary key.
#[tactic(auto, using(crate::specs::Shapes::is_constraint_lem, bytes_bundle::specs::Heads::rest_lem))]
pub fn is_constraint(s: &[u8]) -> bool
    ensures { result ≡ is_there (constraint.read s.now) }
{
    match s {
        [0] => true,
        [1, key @ ..] => is_key(key),
        _ => false,
    }
}

pub fn are_constraints(s: &[u8]) -> bool
    ensures { result ≡ is_there ((list_of 2 constraint).read s.now) }
{
    bytes_bundle::is_bundle(s, 2) && bytes_bundle::iter(s, 2).all(is_constraint)
}

// Three marks, a name, columns and constraints.
#[tactic(auto, using(crate::specs::Shapes::is_create_lem, bytes_bundle::specs::Laws::is_record_lem))]
pub fn is_create(s: &[u8]) -> bool
    ensures { result ≡ is_there (create.read s.now) }
{
    bytes_bundle::is_record(s, 2, 4)
        && are_marks(bytes_bundle::part(s, 2, 0), 3)
        && names::is_object_name(bytes_bundle::part(s, 2, 1))
        && are_column_definitions(bytes_bundle::part(s, 2, 2))
        && are_constraints(bytes_bundle::part(s, 2, 3))
}

// ---- what a CREATE TABLE holds

pub fn if_not_exists(c: &[u8]) -> bool
    requires { Is create c.now }
    ensures { (v : CreateTable) → Holds create c.now v → result ≡ v.if_not_exists }
{
    let m = bytes_bundle::part(c, 2, 0);
    m[0] == 1
}

pub fn as_query(c: &[u8]) -> bool
    requires { Is create c.now }
    ensures { (v : CreateTable) → Holds create c.now v → result ≡ v.as_query }
{
    let m = bytes_bundle::part(c, 2, 0);
    m[1] == 1
}

pub fn other_feature(c: &[u8]) -> bool
    requires { Is create c.now }
    ensures { (v : CreateTable) → Holds create c.now v → result ≡ v.other_feature }
{
    let m = bytes_bundle::part(c, 2, 0);
    m[2] == 1
}

pub fn table_name(c: &[u8]) -> &[u8]
    requires { Is create c.now }
    ensures { (v : CreateTable) → Holds create c.now v → Holds object_name result.now v.name }
{
    bytes_bundle::part(c, 2, 1)
}

pub fn columns(c: &[u8]) -> &[u8]
    requires { Is create c.now }
    ensures { (v : CreateTable) → Holds create c.now v → Holds (list_of 2 column_definition) result.now v.columns }
{
    bytes_bundle::part(c, 2, 2)
}

pub fn constraints(c: &[u8]) -> &[u8]
    requires { Is create c.now }
    ensures { (v : CreateTable) → Holds create c.now v → Holds (list_of 2 constraint) result.now v.constraints }
{
    bytes_bundle::part(c, 2, 3)
}

// ---- a column

pub fn collation(d: &[u8]) -> bool
    requires { Is column_definition d.now }
    ensures { (v : ColumnDefinition) → Holds column_definition d.now v → result ≡ v.collation }
{
    let m = bytes_bundle::part(d, 2, 0);
    m[0] == 1
}

pub fn column_name(d: &[u8]) -> &[u8]
    requires { Is column_definition d.now }
    ensures { (v : ColumnDefinition) → Holds column_definition d.now v → Holds name result.now v.name }
{
    bytes_bundle::part(d, 2, 1)
}

pub fn options(d: &[u8]) -> &[u8]
    requires { Is column_definition d.now }
    ensures { (v : ColumnDefinition) → Holds column_definition d.now v → Holds (list_of 2 option) result.now v.options }
{
    bytes_bundle::part(d, 2, 2)
}

// The type's code: 0 to 2 for a known type, 3 for any other.
pub fn type_code(d: &[u8]) -> u8
    requires { Is column_definition d.now }
    ensures { (v : ColumnDefinition) → Holds column_definition d.now v → result ≡ column_type_no v.ty }
{
    let t = bytes_bundle::part(d, 2, 3);
    t[0]
}

// ---- an option

pub fn option_named(o: &[u8]) -> bool
    requires { Is option o.now }
    ensures { (v : ColumnOption) → Holds option o.now v → result ≡ v.named }
{
    o[0] == 1
}

// The kind's code, 0 to 4.
pub fn option_kind(o: &[u8]) -> u8
    requires { Is option o.now }
    ensures { (v : ColumnOption) → Holds option o.now v → result ≡ option_kind_no v.kind }
{
    o[1]
}

// ---- a constraint

pub fn is_primary_key(c: &[u8]) -> bool
    requires { Is constraint c.now }
    ensures { (v : Constraint) → Holds constraint c.now v → result ≡ is_key v }
{
    c[0] == 1
}

pub fn key_marked(c: &[u8]) -> bool
    requires { Shows constraint is_key c.now }
    ensures { (m : Bool) (names : List Name) → Holds constraint c.now (primary_key m names) → result ≡ m }
{
    c[1] == 1
}

pub fn key_names(c: &[u8]) -> &[u8]
    requires { Shows constraint is_key c.now }
    ensures { (m : Bool) (names : List Name) → Holds constraint c.now (primary_key m names) → Holds (list_of 2 name) result.now names }
{
    &c[2..]
}
