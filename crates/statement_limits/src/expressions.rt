// Expressions: their names and how deep they are.
ghost use Rattle.std.specs.Prelude.{◌≡◌};
ghost use Rattle.std.proofs.Math.Option.{Option};
ghost use Rattle.bytes_bundle.specs.Held.{Is, Holds};
ghost use Rattle.image_expression.specs.Expression.{expression};
ghost use Rattle.rules.specs.Statements.{Expr};
ghost use Rattle.image_parts.specs.Layout.{condition};
ghost use Rattle.statement_limits.specs.Within.{expression_within, condition_within};

pub fn is_expression_within(e: &[u8]) -> bool
    requires { Is expression e.now }
    ensures { (v : Expr) → Holds expression e.now v → result ≡ expression_within v }
{
    if !image_expression::names_within(e) {
        return false;
    }
    let n = image_expression::nodes(e);
    // no tree is deeper than it has nodes
    if n <= 64 {
        return true;
    }
    image_expression::depth_at_most(e, n - 1, 64)
}

// A condition may be absent.
pub fn is_condition_within(c: &[u8]) -> bool
    requires { Is condition c.now }
    ensures { (v : Option Expr) → Holds condition c.now v → result ≡ condition_within v }
{
    if !image_parts::condition::has_condition(c) {
        return true;
    }
    is_expression_within(c)
}
