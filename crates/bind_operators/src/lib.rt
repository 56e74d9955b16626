// What an operator makes of its operands' marks: the rules of the operators as one table, and those of a single operand.
#![tactic(auto)]

ghost use Rattle.std.specs.Prelude.{◌≡◌, false};
ghost use Rattle.rules.specs.Statements as statements;
ghost use Rattle.rules.specs.declared.ExpressionType.TheVariants as type;
ghost use Rattle.rules.specs.Lookup.{mark};
ghost use Rattle.rules.specs.Marking.{operator_rule, operand_of, unary_rule};
ghost use Rattle.bind_operators.specs.Told.{told};

use rules::{BoundBinaryOperator, BoundUnaryOperator, Class, ExpressionType, Mark};

// What an operator's rule says of two types: the result's type, or which class of error it is.
type Entry = Result<ExpressionType, Class>;

const INT: Entry = Ok(ExpressionType::Int);

const BOOL: Entry = Ok(ExpressionType::Bool);

const ODD: Entry = Err(Class::SchemaMismatch); // a wrong type

const NULL: Entry = Err(Class::UnsupportedSql); // a comparison with type NULL

// By left type and right type, each in the order in which they are declared.
type Entries = [[Entry; 4]; 4];

const ARITHMETIC: Entries = [[INT, ODD, ODD, ODD], [ODD; 4], [ODD; 4], [ODD; 4]];

const EQUALITY: Entries = [
    [BOOL, ODD, ODD, NULL],
    [ODD, BOOL, ODD, NULL],
    [ODD, ODD, BOOL, NULL],
    [NULL; 4],
];

const ORDER: Entries = [
    [BOOL, ODD, ODD, NULL],
    [ODD, BOOL, ODD, NULL],
    [ODD, ODD, ODD, NULL],
    [NULL; 4],
];

const LOGIC: Entries = [[ODD; 4], [ODD; 4], [ODD, ODD, BOOL, ODD], [ODD; 4]];

// By operator, in the order in which they are declared.
static TABLE: [Entries; 13] = [
    ARITHMETIC, // +
    ARITHMETIC, // -
    ARITHMETIC, // *
    ARITHMETIC, // /
    ARITHMETIC, // %
    EQUALITY, // =
    EQUALITY, // <>
    ORDER, // >
    ORDER, // >=
    ORDER, // <
    ORDER, // <=
    LOGIC, // AND
    LOGIC, // OR
];

// The one place that reads the table.
pub fn result(
    o: BoundBinaryOperator,
    left: ExpressionType,
    right: ExpressionType,
) -> Result<ExpressionType, Class>
    ensures { result ≡ told (operator_rule o left right) }
{
    TABLE[o as usize][left as usize][right as usize]
}

// An operand of the wanted type keeps its mark.
fn operand_of(wanted: ExpressionType, operand: Mark) -> Result<Mark, Class>
    ensures { result ≡ told (operand_of wanted operand) }
{
    if operand.ty == wanted {
        return Ok(operand);
    }
    Err(Class::SchemaMismatch)
}

#[tactic(auto, unfolding(rules::specs::Marking::unary_rule))]
pub fn unary(o: BoundUnaryOperator, operand: Mark) -> Result<Mark, Class>
    ensures { result ≡ told (unary_rule (statements.unary o) operand) }
{
    match o {
        BoundUnaryOperator::Positive | BoundUnaryOperator::Negative => {
            operand_of(ExpressionType::Int, operand)
        }
        BoundUnaryOperator::Not => operand_of(ExpressionType::Bool, operand),
    }
}

// IS NULL and IS NOT NULL, over any operand.
pub fn null_test() -> Mark
    ensures { result ≡ mark type.Bool false }
{
    Mark {
        ty: ExpressionType::Bool,
        nullable: false,
    }
}
