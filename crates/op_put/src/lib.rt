// A statement that is bound: its image where there is room for it.
#![tactic(auto)]

ghost use Rattle.std.specs.Prelude.{length};
ghost use Rattle.op_reply.specs.Leaves.{Leaves, told};
ghost use Rattle.op_received.specs.Entry.{bind_bytes};
ghost use Rattle.op_put.specs.Binds.{Measures};

use op_reply::Refused;
use write_statement::write;

// Of a statement whose bound image is this long: the image, where there is room. Nothing is written before there is room for all of it.
pub fn put(
    statement: &[u8],
    catalogue: &[u8],
    out: &mut [u8],
    size: usize,
) -> Result<usize, Refused>
    requires { Measures statement.now catalogue.now size }
    ensures { Leaves (bind_bytes statement.now catalogue.now (length out.old)) out.old (told result) out.new }
{
    if out.len() < size {
        return Err(Refused::NoRoom);
    }
    let written = write(catalogue, statement, out);
    Ok(written)
}
