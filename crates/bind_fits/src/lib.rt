// Whether a value fits the column that it is given to, and whether a condition is one.
#![tactic(auto)]

ghost use Rattle.std.specs.Prelude.{◌≡◌};
ghost use Rattle.rules.specs.Bound.{Value, BoundColumnRef};
ghost use Rattle.rules.specs.Lookup.{expression_type, column_mark};
ghost use Rattle.rules.specs.Fits.{is_condition, fit};
ghost use Rattle.rules.specs.Analyze.{same_type, typed_fit, value_fit};
ghost use Rattle.bind_operators.specs.Told.{told};
ghost use Rattle.bind_fits.specs.Told.{kind_of, null_fit};

use rules::{Class, DataType, ExpressionType, Mark};

// What a value of a VALUES list is, as far as its column asks.
#[derive(Clone, Copy)]
pub enum ValueKind {
    Int,
    Text,
    Bool,
    Null,
}

fn expression_type(ty: DataType) -> ExpressionType
    ensures { result ≡ expression_type ty }
{
    match ty {
        DataType::Int => ExpressionType::Int,
        DataType::Text => ExpressionType::Text,
        DataType::Bool => ExpressionType::Bool,
    }
}

// The mark of a name that stands for a column.
pub fn column_mark(ty: DataType, nullable: bool) -> Mark
    ensures { (c : BoundColumnRef) → c.ty ≡ ty → c.nullable ≡ nullable → result ≡ column_mark c }
{
    Mark {
        ty: expression_type(ty),
        nullable,
    }
}

// NULL, or what may be NULL, given to a column.
fn null_fit(nullable: bool) -> Result<(), Class>
    ensures { result ≡ null_fit nullable }
{
    if nullable {
        return Ok(());
    }
    Err(Class::ConstraintViolation)
}

// An expression's value given to a column, by its mark.
#[tactic(auto, unfolding(rules::specs::Fits::fit))]
pub fn expression_fit(m: Mark, ty: DataType, nullable: bool) -> Result<(), Class>
    ensures { (c : BoundColumnRef) → c.ty ≡ ty → c.nullable ≡ nullable → result ≡ told (fit m c) }
{
    let given = m.ty;
    // NULL is of no column's type: whether it is allowed is told first
    if given == ExpressionType::Null {
        return null_fit(nullable);
    }
    let wanted = expression_type(ty);
    if given != wanted {
        return Err(Class::SchemaMismatch);
    }
    if m.nullable {
        return null_fit(nullable);
    }
    Ok(())
}

fn typed_fit(ty: DataType, given: DataType) -> Result<(), Class>
    ensures { result ≡ told (typed_fit (same_type ty given)) }
{
    if ty == given {
        return Ok(());
    }
    Err(Class::SchemaMismatch)
}

// A literal of a VALUES list given to a column.
#[tactic(auto, using(crate::proofs::Laws::kind_told, crate::proofs::Laws::null_told))]
pub fn value_fit(kind: ValueKind, ty: DataType, nullable: bool) -> Result<(), Class>
    ensures { (v : Value) (c : BoundColumnRef) → kind_of v ≡ kind → c.ty ≡ ty → c.nullable ≡ nullable
        → result ≡ told (value_fit v c) }
{
    match kind {
        ValueKind::Int => typed_fit(ty, DataType::Int),
        ValueKind::Text => typed_fit(ty, DataType::Text),
        ValueKind::Bool => typed_fit(ty, DataType::Bool),
        ValueKind::Null => null_fit(nullable),
    }
}

// A WHERE must be BOOL.
pub fn condition(m: Mark) -> Result<(), Class>
    ensures { result ≡ told (is_condition m) }
{
    if m.ty == ExpressionType::Bool {
        return Ok(());
    }
    Err(Class::SchemaMismatch)
}
