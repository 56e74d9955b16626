// The public operation `bind`. `op_received` has what it answers on bytes, `op_reply` what its output then holds.
#![tactic(auto)]

ghost use Rattle.std.specs.Prelude.{length};
ghost use Rattle.op_reply.specs.Leaves.{Leaves, told};
ghost use Rattle.op_received.specs.Entry.{bind_bytes};

use bind_statement::analyze;
use op_put::put;
use op_received::received;
use op_reply::Refused;

// The bound statement, or the first refusal of 5, 6, 7, 8, then 1 to 4, then 9.
pub fn bind(statement: &[u8], catalogue: &[u8], out: &mut [u8]) -> Result<usize, Refused>
    ensures { Leaves (bind_bytes statement.now catalogue.now (length out.old)) out.old (told result) out.new }
{
    received(statement, catalogue)?;
    let size = analyze(catalogue, statement)?;
    put(statement, catalogue, out, size)
}
