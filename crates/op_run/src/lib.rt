// The public operation `run`: an UPDATE run on one row. `op_received` has what it answers on bytes, `op_reply` what its output then holds.
#![tactic(auto)]

ghost use Rattle.std.specs.Prelude.{◌≡◌, length};
ghost use Rattle.bytes_bundle.specs.Bundle.{is_there};
ghost use Rattle.bytes_bundle.specs.Held.{Is, Holds};
ghost use Rattle.rules.specs.Analyze as rule;
ghost use Rattle.rules.specs.Answers.{given};
ghost use Rattle.rules.specs.Bound.{BoundStatement};
ghost use Rattle.rules.specs.Heard as heard;
ghost use Rattle.rules.specs.Heard.{Running};
ghost use Rattle.rules.specs.Statements.{Statement};
ghost use Rattle.rules.specs.Tables.{Catalogue};
ghost use Rattle.image_parts.specs.Layout.{statement};
ghost use Rattle.op_reply.specs.Leaves.{Leaves, told};
ghost use Rattle.op_received.specs.Entry.{run_bytes};
ghost use Rattle.run_update.specs.OnRow.{update_bytes};
ghost use Rattle.op_run.specs.Runs.{BoundBy};
ghost use Rattle.op_run.specs.Stands.{Stands, SomeStands};

use bind_statement::analyze;
use bind_table::resolve_direct_table;
use image_update::table_of;
use op_received::received;
use op_reply::Refused;
use run_update::run_over;

// Whether a bound statement is an UPDATE by 01's dispatch: the raw text first, then the kind.
fn runnable(s: &[u8]) -> bool
    requires { Is statement s.now }
    ensures { (cat : Catalogue) (v : Statement) (b : BoundStatement) → Holds statement s.now v → rule.analyze cat v ≡ given b
        → result ≡ is_there (heard.runnable cat v) }
{
    if text_trim::is_show_transactions(image_statement::raw_of(s)) {
        return false;
    }
    image_statement::kind_code(s) == 3
}

// An UPDATE, which names its table.
fn run_update<'a>(c: &'a [u8], b: &'a [u8], r: &'a [u8], out: &mut [u8]) -> Result<usize, Refused>
    requires { SomeStands c.now b.now }
    ensures { (u : Running) → Stands c.now b.now u
        → Leaves (update_bytes u r.now (length out.old)) out.old (told result) out.new }
{
    match resolve_direct_table(c, table_of(b)) {
        Ok(t) => run_over(t, b, r, out),
        // never: the UPDATE is bound
        Err(_) => Err(Refused::NoUpdate),
    }
}

// A statement that is bound: 12 before the row is looked at.
fn run_bound<'a>(s: &'a [u8], c: &'a [u8], r: &'a [u8], out: &mut [u8]) -> Result<usize, Refused>
    requires { BoundBy s.now c.now }
    ensures { Leaves (run_bytes s.now c.now r.now (length out.old)) out.old (told result) out.new }
{
    if !runnable(s) {
        return Err(Refused::NoUpdate);
    }
    run_update(c, image_statement::kind_body(s), r, out)
}

// The row that the UPDATE makes of `row`, or the first refusal of 5, 6, 7, 8, then 1 to 4, then 12, 10, 11, 9.
pub fn run<'a>(
    statement: &'a [u8],
    catalogue: &'a [u8],
    row: &'a [u8],
    out: &mut [u8],
) -> Result<usize, Refused>
    ensures { Leaves (run_bytes statement.now catalogue.now row.now (length out.old))
        out.old (told result) out.new }
{
    received(statement, catalogue)?;
    analyze(catalogue, statement)?;
    run_bound(statement, catalogue, row, out)
}
