// What every part is made of: counts, ids, codes and marks.
ghost use Rattle.std.specs.Prelude.{◌≡◌, [], ◌∷◌, ◌++◌, ℕ, ◌+◌, ◌^◌, ◌≤◌, ◌<◌, length};
ghost use Rattle.bytes_wire.specs.Le.{le};
ghost use Rattle.bytes_wire.specs.Sets.{Wrote};
ghost use Rattle.bytes_format.proofs.Formats.{mark};
ghost use Rattle.image_value.specs.Parts.{column_id, data_type, data_type_no, expression_type};
ghost use Rattle.rules.specs.Marking.{type_no};
ghost use Rattle.image_bound.specs.Expression.{marks};

use rules::{ColumnId, DataType, ExpressionType, Mark};

// A count of the bound statement has 4 bytes. A larger number would lose its upper bytes.
pub fn put_count(out: &mut [u8], at: usize, n: usize) -> usize
    requires { (n < 2 ^ 32) × (at + 4 ≤ length out.old) }
    ensures { Wrote out.old at (le 4 n) result out.new }
{
    bytes_wire::put(out, at, 4, n as u64)
}

pub fn put_id(out: &mut [u8], at: usize, id: ColumnId) -> usize
    requires { at + 8 ≤ length out.old }
    ensures { Wrote out.old at (column_id.form.write id) result out.new }
{
    bytes_wire::put(out, at, 8, id.0)
}

pub fn count_len() -> usize
    ensures { (result ≡ 4) × ((n : ℕ) → result ≡ length (le 4 n)) }
{
    4
}

pub fn put_byte(out: &mut [u8], at: usize, b: u8) -> usize
    requires { at + 1 ≤ length out.old }
    ensures { Wrote out.old at (b ∷ []) result out.new }
{
    out[at] = b;
    at + 1
}

pub fn put_mark(out: &mut [u8], at: usize, yes: bool) -> usize
    requires { at + 1 ≤ length out.old }
    ensures { Wrote out.old at (mark.form.write yes) result out.new }
{
    put_byte(out, at, u8::from(yes))
}

fn data_type_code(ty: DataType) -> u8
    ensures { result ≡ data_type_no ty }
{
    match ty {
        DataType::Int => 0,
        DataType::Text => 1,
        DataType::Bool => 2,
    }
}

pub fn put_data_type(out: &mut [u8], at: usize, ty: DataType) -> usize
    requires { at + 1 ≤ length out.old }
    ensures { Wrote out.old at (data_type.form.write ty) result out.new }
{
    put_byte(out, at, data_type_code(ty))
}

// The two that every column has.
pub fn put_type_and_null(out: &mut [u8], at: usize, ty: DataType, nullable: bool) -> usize
    requires { at + 2 ≤ length out.old }
    ensures { Wrote out.old at (data_type.form.write ty ++ mark.form.write nullable) result out.new }
{
    let a = put_data_type(out, at, ty);
    put_mark(out, a, nullable)
}

fn type_code(ty: ExpressionType) -> u8
    ensures { result ≡ type_no ty }
{
    match ty {
        ExpressionType::Int => 0,
        ExpressionType::Text => 1,
        ExpressionType::Bool => 2,
        ExpressionType::Null => 3,
    }
}

pub fn put_type(out: &mut [u8], at: usize, ty: ExpressionType) -> usize
    requires { at + 1 ≤ length out.old }
    ensures { Wrote out.old at (expression_type.form.write ty) result out.new }
{
    put_byte(out, at, type_code(ty))
}

// The type and may-be-null of a node.
pub fn put_marks(out: &mut [u8], at: usize, m: Mark) -> usize
    requires { at + 2 ≤ length out.old }
    ensures { Wrote out.old at (marks.form.write m) result out.new }
{
    let ty = m.ty;
    let null = m.nullable;
    let a = put_type(out, at, ty);
    put_mark(out, a, null)
}
