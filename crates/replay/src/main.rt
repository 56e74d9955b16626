// Replays the two records: `data/README` says how each was made and how it is laid out. What is counted of a record is `replay_walk`'s;
// here it is read and printed.
#![tactic(auto)]

ghost use Rattle.std.specs.Io.{ReadsAtMost};

use program_files::read_full;
use replay_record::{Of, Tally};
use replay_walk::replayed;
use std::fs::File;
use std::io;
use std::rt::Files;

// How many bytes the file has, which are put at the front of `to`; all of `to` for a longer file. 0 where it can't be opened, with the reason
// on standard error.
fn read(rt: &(impl Files + Eprint), name: &str, to: &mut [u8]) -> io::Result<usize>
    ensures { ReadsAtMost result to.new }
{
    match File::open(rt, name) {
        Ok(mut file) => read_full(&mut file, to),
        Err(error) => {
            eprintln!(rt; "{name}: {error}")?;
            Ok(0)
        }
    }
}

fn say(rt: &impl Print, name: &str, of: Of, tally: Tally) -> io::Result<()> {
    let Tally {
        cases,
        answered,
        faults,
        others,
        differences,
    } = tally;
    match of {
        Of::Binds => {
            println!(rt; "{name}: {cases} replayed: {answered} bound, {differences} differences")
        }
        Of::Runs => {
            println!(rt;
                "{name}: {cases} replayed: {answered} rows, {faults} faults, {others} refused otherwise, {differences} differences"
            )
        }
    }
}

// The record's name is its file's.
fn replay_in(
    rt: &(impl Files + Print + Eprint),
    name: &str,
    of: Of,
    space: &mut [u8],
) -> io::Result<()> {
    let n = read(rt, name, space)?;
    match replayed(&space[..n], of) {
        Ok(tally) => say(rt, name, of, tally),
        Err(damaged) => println!(rt; "{name}: {damaged}"),
    }
}

// An array's length is its type's: lent as a slice by `main`, it would be counted byte by byte in the proof.
fn replay(
    rt: &(impl Files + Print + Eprint),
    name: &str,
    of: Of,
    space: &mut [u8; 1048576],
) -> io::Result<()> {
    replay_in(rt, name, of, space)
}

fn main(rt: HostRuntime) -> io::Result<()> {
    let mut space = [0u8; 1048576];
    replay(&rt, "binds", Of::Binds, &mut space)?;
    replay(&rt, "runs", Of::Runs, &mut space)
}
