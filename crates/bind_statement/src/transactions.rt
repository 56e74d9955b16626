// The kinds of which nothing but their marks is looked at: BEGIN, COMMIT, ROLLBACK, SHOW TABLES. Bound, each is a code alone: one byte.
ghost use Rattle.std.specs.Prelude.{◌≡◌, Bool, length};
ghost use Rattle.image_bound.specs.Layout.{bound_statement};
ghost use Rattle.bytes_bundle.specs.Held.{Is, Holds};
ghost use Rattle.bytes_format.proofs.Formats.{mark, both, alone};
ghost use Rattle.bind_table.specs.Told.{sized};
ghost use Rattle.rules.specs.Analyze.{analyze_kind};
ghost use Rattle.rules.specs.Bound.{BoundStatement};
ghost use Rattle.rules.specs.Statements.{rollback};
ghost use Rattle.rules.specs.Tables.{Catalogue};
ghost use Rattle.bind_statement.specs.Dispatch.{unmarked};

use image_statement::{is_marked, rollback_chain, rollback_savepoint};
use rules::{Class, Refusal};

// BEGIN, COMMIT and SHOW TABLES have one mark, which stands for whatever else was said.
pub fn analyze_unmarked(b: &[u8]) -> Result<usize, Refusal>
    requires { Is (alone mark) b.now }
    ensures { (m : Bool) (v : BoundStatement) → Holds (alone mark) b.now m → length (bound_statement.write v) ≡ 1
        → result ≡ sized bound_statement (unmarked m v) }
{
    if is_marked(b) {
        return Err(Refusal {
            class: Class::UnsupportedSql,
        });
    }
    Ok(1)
}

pub fn analyze_rollback(b: &[u8]) -> Result<usize, Refusal>
    requires { Is (alone (both mark mark)) b.now }
    ensures { (cat : Catalogue) (m n : Bool) → Holds (alone (both mark mark)) b.now (m, n)
        → result ≡ sized bound_statement (analyze_kind cat (rollback m n)) }
{
    if rollback_chain(b) {
        return Err(Refusal {
            class: Class::UnsupportedSql,
        });
    }
    if rollback_savepoint(b) {
        return Err(Refusal {
            class: Class::UnsupportedSql,
        });
    }
    Ok(1)
}
