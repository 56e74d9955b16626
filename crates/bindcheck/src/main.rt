// Binds one statement: the file `catalogue` and a statement image on standard input, and one line out, `bound N` or `refused R`.
#![tactic(auto)]

ghost use Rattle.op_reply.specs.Leaves.{Hears, told};
ghost use Rattle.bindcheck.specs.Checked.{check_bytes};

use op_bind::bind;
use op_reply::Refused;
use program_files::{read_file, read_full};
use std::io;

// The longest input that is judged, and the room for the answer.
const MOST: usize = 65536;

// What `bind` answers; 7 for a longer input, whatever it holds.
fn checked(statement: &[u8], catalogue: &[u8]) -> Result<usize, Refused>
    ensures { Hears (check_bytes statement.now catalogue.now) (told result) }
{
    if MOST < statement.len() {
        return Err(Refused::PastALimit);
    }
    if MOST < catalogue.len() {
        return Err(Refused::PastALimit);
    }
    let mut out = [0u8; 65536];
    bind(statement, catalogue, &mut out)
}

fn say(rt: &impl Print, heard: Result<usize, Refused>) -> io::Result<()> {
    match heard {
        Ok(length) => println!(rt; "bound {length}"),
        Err(refused) => println!(rt; "{refused}"),
    }
}

// One byte more than is judged, so that a longer input shows.
fn main(rt: HostRuntime) -> io::Result<()> {
    let mut tables = [0u8; 65537];
    let mut space = [0u8; 65537];
    let length = read_file(&rt, "catalogue", &mut tables)?;
    let size = read_full(&mut rt.stdin(), &mut space)?;
    say(&rt, checked(&space[..size], &tables[..length]))
}
