// The analysis of a statement over a catalogue, by its raw text and then by its kind: how long the bound statement is, or the refusal.
#![tactic(auto)]

mod transactions;

ghost use Rattle.std.specs.Prelude.{◌≡◌};
ghost use Rattle.image_bound.specs.Layout.{bound_statement};
ghost use Rattle.bytes_bundle.specs.Held.{Is, Holds};
ghost use Rattle.image_catalogue.specs.Layout.{catalogue};
ghost use Rattle.bind_table.specs.Told.{sized};
ghost use Rattle.rules.specs.Analyze as rule;
ghost use Rattle.rules.specs.Statements.{Statement};
ghost use Rattle.rules.specs.Tables.{Catalogue};
ghost use Rattle.image_parts.specs.Layout.{statement};
ghost use Rattle.bind_statement.specs.Dispatch.{by_kind};
ghost use Rattle.bind_statement.specs.Within.{StatementWithin};

use bind_create::analyze_create_table;
use bind_delete::analyze_delete;
use bind_insert::analyze_insert;
use bind_select::analyze_select;
use bind_update::analyze_update;
use rules::{Class, Refusal};
use transactions::{analyze_rollback, analyze_unmarked};

fn analyze_kind(c: &[u8], s: &[u8]) -> Result<usize, Refusal>
    requires { Is catalogue c.now × StatementWithin s.now }
    ensures { (cat : Catalogue) (v : Statement) → Holds catalogue c.now cat → Holds statement s.now v
        → result ≡ sized bound_statement (by_kind cat v) }
{
    let body = image_statement::kind_body(s);
    match image_statement::kind_code(s) {
        0 => analyze_create_table(c, body),
        1 => analyze_insert(c, body),
        2 => analyze_select(c, body),
        3 => analyze_update(c, body),
        4 => analyze_delete(c, body),
        5 => analyze_unmarked(body),
        6 => analyze_unmarked(body),
        7 => analyze_rollback(body),
        8 => analyze_unmarked(body),
        _ => Err(Refusal {
            class: Class::UnsupportedSql,
        }),
    }
}

// SHOW TRANSACTIONS is told by the text alone, before the kind is looked at.
pub fn analyze(c: &[u8], s: &[u8]) -> Result<usize, Refusal>
    requires { Is catalogue c.now × StatementWithin s.now }
    ensures { (cat : Catalogue) (v : Statement) → Holds catalogue c.now cat → Holds statement s.now v
        → result ≡ sized bound_statement (rule.analyze cat v) }
{
    if text_trim::is_show_transactions(image_statement::raw_of(s)) {
        return Ok(1);
    }
    analyze_kind(c, s)
}
