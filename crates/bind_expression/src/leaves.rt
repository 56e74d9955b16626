// The leaves of a bound expression: each is one node, and holds a column or a literal.
ghost use Rattle.std.specs.Prelude.{◌≡◌, ◌+◌, ◌^◌, ◌<◌, ◌≤◌, length};
ghost use Rattle.image_expression.specs.Place.{node_at};
ghost use Rattle.text_names.specs.Compared.{named};
ghost use Rattle.rules.specs.Bound.{Value};
ghost use Rattle.rules.specs.Lookup as lookup;
ghost use Rattle.rules.specs.Marking.{column_leaf, integer_leaf, literal_leaf};
ghost use Rattle.rules.specs.Names.{canonical};
ghost use Rattle.rules.specs.Numbers.{integer_literal};
ghost use Rattle.rules.specs.Tables.{TableSchema};
ghost use Rattle.image_value.specs.Parts.{value};
ghost use Rattle.image_catalogue.specs.Layout.{table};
ghost use Rattle.bytes_bundle.specs.Held.{Is, Holds};
ghost use Rattle.bind_expression.specs.Told.{run, leaf_told, type_of, text_of};
ghost use Rattle.bind_expression.specs.Marks.{Markable, Marks};

use crate::Measured;
use bind_fits::column_mark;
use catalogue_lookup::find_column;
use image_bound::columns::column_ref_len;
use image_bound::nodes::NODE;
use image_bound::values::{bool_len, int_len, null_len, text_len};
use image_expression::text;
use rules::{Class, ExpressionType, Mark, Refusal};
use text_numbers::integer_literal;

// A leaf is one node.
fn one_leaf(mark: Mark, content: usize) -> Measured
    requires { content < 2 ^ 32 }
    ensures { result ≡ run (content + 11) mark }
{
    Measured {
        mark,
        size: content + NODE,
    }
}

// The bytes that a literal of this type holds, where n are those of its text.
fn literal_len(ty: ExpressionType, n: usize) -> usize
    requires { n ≤ 65536 }
    ensures { (result < 2 ^ 32) × ((v : Value) → type_of v ≡ ty → text_of v ≡ n → result ≡ length (value.write v)) }
{
    match ty {
        ExpressionType::Int => int_len(),
        ExpressionType::Text => text_len(n),
        ExpressionType::Bool => bool_len(),
        ExpressionType::Null => null_len(),
    }
}

fn literal(ty: ExpressionType, nullable: bool, n: usize) -> Measured
    requires { n ≤ 65536 }
    ensures { (v : Value) → type_of v ≡ ty → text_of v ≡ n → Ok result ≡ leaf_told (literal_leaf v ty nullable) }
{
    one_leaf(Mark { ty, nullable }, literal_len(ty, n))
}

// A number, under a minus or not: its text must be one of 64 signed bits.
pub fn number(s: &[u8], negative: bool) -> Result<Measured, Refusal>
    ensures { result ≡ leaf_told (integer_leaf (integer_literal negative s.now)) }
{
    match integer_literal(s, negative) {
        Some(_) => Ok(literal(ExpressionType::Int, false, 0)),
        None => Err(Class::SchemaMismatch.into()),
    }
}

// A name stands for a column of the table, and the bound leaf holds the name that the table has. A call of its own, so that what is looked up
// has no room on the stack at each level of an expression.
#[tactic(auto, using(crate::proofs::Looked::column_long, crate::proofs::Looked::column_is, crate::proofs::Looked::column_none))]
#[inline(never)]
fn column(t: &[u8], quoted: bool, name: &[u8]) -> Result<Measured, Refusal>
    requires { Is table t.now × (length name.now ≤ 128) }
    ensures { (v : TableSchema) → Holds table t.now v
        → result ≡ leaf_told (column_leaf (lookup.column_by_name v (canonical (named quoted name.now)))) }
{
    match find_column(t, quoted, name) {
        Some(c) => Ok(one_leaf(column_mark(c.ty, c.nullable), column_ref_len(c.name.len()))),
        None => Err(Class::SchemaMismatch.into()),
    }
}

// A leaf by its kind: 0 a name, 1 a quoted one, 2 a number, 3 a string, 4 TRUE, 5 FALSE, 6 NULL, 7 another literal, 8 another expression.
#[tactic(auto, using(crate::proofs::Places::known, crate::specs::Small::short_text))]
pub fn leaf(t: &[u8], e: &[u8], i: usize, k: u8) -> Result<Measured, Refusal>
    requires markable { Markable t.now e.now i }
    requires k_value { (k ≡ (node_at e.now i).kind) × (k < 9) }
    ensures { Marks t.now e.now i result }
{
    match k {
        0 => column(t, false, text(e, i)),
        1 => column(t, true, text(e, i)),
        2 => number(text(e, i), false),
        3 => Ok(literal(ExpressionType::Text, false, text(e, i).len())),
        4 => Ok(literal(ExpressionType::Bool, false, 0)),
        5 => Ok(literal(ExpressionType::Bool, false, 0)),
        6 => Ok(literal(ExpressionType::Null, true, 0)),
        7 => Err(Class::UnsupportedSql.into()),
        _ => Err(Class::UnsupportedSql.into()),
    }
}
