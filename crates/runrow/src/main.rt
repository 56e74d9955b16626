// Runs one UPDATE on one row: the files `catalogue` and `row`, and a statement image on standard input. One line out: `row N`, and the new
// row's image of N bytes is in the file `new-row`; or `refused R`, and no file is touched; or `not written`.
#![tactic(auto)]

ghost use Rattle.std.specs.Prelude.{◌≡◌, length};
ghost use Rattle.rules.specs.Heard.{refuses, answers};
ghost use Rattle.op_reply.specs.Leaves.{Leaves, told, number_of};
ghost use Rattle.runrow.specs.Ran.{most, ran_bytes};

use op_reply::Refused;
use op_run::run;
use program_files::{read_file, read_full};
use std::fs::{self, File, OpenFile};
use std::io::{self, ErrorKind, Write};
use std::rt::Files;

// The longest input that is judged, and the room for the answer.
const MOST: usize = 65536;

// What `run` answers; 7 for a longer input, whatever it holds.
fn ran<'a>(
    statement: &'a [u8],
    catalogue: &'a [u8],
    row: &'a [u8],
    out: &mut [u8],
) -> Result<usize, Refused>
    requires { most ≡ length out.old }
    ensures { Leaves (ran_bytes statement.now catalogue.now row.now) out.old (told result) out.new }
{
    if MOST < statement.len() {
        return Err(Refused::PastALimit);
    }
    if MOST < catalogue.len() {
        return Err(Refused::PastALimit);
    }
    if MOST < row.len() {
        return Err(Refused::PastALimit);
    }
    run(statement, catalogue, row, out)
}

// Writes all of `new`. Nobody hears of a failure when the file is closed, so it is synced first; `InvalidInput` is the answer of what keeps
// nothing to sync, as a pipe.
fn put<F: Write + OpenFile + Drop>(mut file: F, new: &[u8]) -> io::Result<()> {
    file.write_all(new)?;
    match file.sync_all() {
        Err(error) if error.kind() == ErrorKind::InvalidInput => Ok(()),
        synced => synced,
    }
}

// Puts all of `new` in the file `new-row`. A file with a part of it is taken away.
fn write_new_row(rt: &impl Files, new: &[u8]) -> io::Result<()> {
    let written = put(File::create(rt, "new-row")?, new);
    if written.is_err() {
        let _ = fs::remove_file(rt, "new-row");
    }
    written
}

// The inputs stand here for the contract: no other row is kept than the one that they come to.
fn keep<'a>(
    rt: &(impl Files + Print + Eprint),
    statement: &'a [u8],
    catalogue: &'a [u8],
    row: &'a [u8],
    new: &[u8],
) -> io::Result<()>
    requires { ran_bytes statement.now catalogue.now row.now ≡ answers new.now }
{
    if let Err(error) = write_new_row(rt, new) {
        eprintln!(rt; "new-row: {error}")?;
        return println!(rt; "not written");
    }
    println!(rt; "row {}", new.len())
}

// Likewise, no other refusal is said.
fn refuse<'a>(
    rt: &impl Print,
    statement: &'a [u8],
    catalogue: &'a [u8],
    row: &'a [u8],
    refused: Refused,
) -> io::Result<()>
    requires { ran_bytes statement.now catalogue.now row.now ≡ refuses (number_of refused) }
{
    println!(rt; "{refused}")
}

fn run_row<'a>(
    rt: &(impl Files + Print + Eprint),
    statement: &'a [u8],
    catalogue: &'a [u8],
    row: &'a [u8],
) -> io::Result<()> {
    let mut out = [0u8; 65536];
    match ran(statement, catalogue, row, &mut out) {
        Ok(length) => keep(rt, statement, catalogue, row, &out[..length]),
        Err(refused) => refuse(rt, statement, catalogue, row, refused),
    }
}

// One byte more than is judged, so that a longer input shows.
fn main(rt: HostRuntime) -> io::Result<()> {
    let mut tables = [0u8; 65537];
    let mut old = [0u8; 65537];
    let mut space = [0u8; 65537];
    let length = read_file(&rt, "catalogue", &mut tables)?;
    let width = read_file(&rt, "row", &mut old)?;
    let size = read_full(&mut rt.stdin(), &mut space)?;
    run_row(&rt, &space[..size], &tables[..length], &old[..width])
}
