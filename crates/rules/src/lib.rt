// The small types that the rules and the code share, with the names of the Rust: the ids, `DataType` of the common crate, and
// what bound.rs enumerates. The rules themselves are in specs/, over plain values; there is no code here.
#![tactic(auto)]

ghost use Rattle.std.specs.Prelude.{◌≡◌};

#[derive(Clone, Copy, Debug, PartialEq, Eq)]
pub struct TableId(pub u64);

// A column's stable identity. It never serves as a row position.
#[derive(Clone, Copy, Debug, PartialEq, Eq)]
pub struct ColumnId(pub u64);

// A row position, counted from 0.
#[derive(Clone, Copy, Debug, PartialEq, Eq)]
pub struct Ordinal(pub usize);

#[derive(Clone, Copy, Debug, PartialEq, Eq)]
pub enum DataType {
    Int,
    Text,
    Bool,
}

#[derive(Clone, Copy, Debug, PartialEq, Eq)]
pub enum ExpressionType {
    Int,
    Text,
    Bool,
    Null,
}

// What a marking gives a node: a type, and whether the value may be null.
#[derive(Clone, Copy, Debug, PartialEq, Eq)]
pub struct Mark {
    pub ty: ExpressionType,
    pub nullable: bool,
}

#[derive(Clone, Copy, Debug, PartialEq, Eq)]
pub enum BoundUnaryOperator {
    Positive,
    Negative,
    Not,
}

#[derive(Clone, Copy, Debug, PartialEq, Eq)]
pub enum BoundBinaryOperator {
    Add,
    Subtract,
    Multiply,
    Divide,
    Modulo,
    Equal,
    NotEqual,
    GreaterThan,
    GreaterThanOrEqual,
    LessThan,
    LessThanOrEqual,
    And,
    Or,
}

// The Rust's classes of error that the analyzer makes.
#[derive(Clone, Copy, Debug, PartialEq, Eq)]
pub enum Class {
    SchemaMismatch,
    ConstraintViolation,
    UnsupportedSql,
    InvalidArgument,
}

#[derive(Clone, Copy, Debug, PartialEq, Eq)]
pub struct Refusal {
    pub class: Class,
}

// A rule tells the class; where it is broken, the class is the refusal.
impl From<Class> for Refusal {
    ghost from_gives = { λ class refusal. refusal ≡ record { class = class } };

    fn from(class: Class) -> Refusal {
        Refusal { class }
    }
}
