// The WHERE of a SELECT, an UPDATE or a DELETE.
#![tactic(auto)]

ghost use Rattle.std.specs.Prelude.{◌≡◌, ◌≤◌, IfOk};
ghost use Rattle.bytes_bundle.specs.Held.{Is, Holds};
ghost use Rattle.image_bound.specs.Expression.{bound_expression};
ghost use Rattle.image_catalogue.specs.Layout.{table};
ghost use Rattle.image_expression.specs.Expression.{expression};
ghost use Rattle.bind_table.specs.Told.{sized};
ghost use Rattle.rules.specs.Fits.{bind_boolean_filter};
ghost use Rattle.rules.specs.Statements.{Expr};
ghost use Rattle.rules.specs.Tables.{TableSchema};
ghost use Rattle.bind_where.specs.Short.{ShortExpression};

use bind_expression::expression_size;
use bind_fits::condition;
use rules::Refusal;

// How long the image of a condition over the table t is, which must be BOOL.
pub fn filter_size(t: &[u8], e: &[u8]) -> Result<usize, Refusal>
    requires { Is table t.now × ShortExpression e.now }
    ensures few { IfOk result (λ n. n ≤ 4294967295) }
    ensures told { (v : TableSchema) (x : Expr) → Holds table t.now v → Holds expression e.now x
        → result ≡ sized bound_expression (bind_boolean_filter v x) }
{
    let bound = expression_size(t, e)?;
    condition(bound.mark)?;
    Ok(bound.len)
}
