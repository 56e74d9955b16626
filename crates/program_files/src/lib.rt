// What the programs read: a whole input, as far as there is space for it.
#![tactic(auto)]

ghost use Rattle.std.specs.Io.{ReadsAtMost};

use std::fs::File;
use std::io::{self, Read};
use std::rt::Files;

// Reads until `space` is full or the input ends, and returns how many bytes it put at the front of `space`.
pub fn read_full(input: &mut impl Read, space: &mut [u8]) -> io::Result<usize>
    ensures { ReadsAtMost result space.new }
{
    let mut done = 0;
    while done < space.len() {
        let n = input.read(&mut space[done..])?;
        if n == 0 {
            break;
        }
        done += n;
    }
    Ok(done)
}

// How many bytes the file put at the front of `space`: 0 where it can't be opened.
pub fn read_file(rt: &impl Files, name: &str, space: &mut [u8]) -> io::Result<usize>
    ensures { ReadsAtMost result space.new }
{
    match File::open(rt, name) {
        Ok(mut file) => read_full(&mut file, space),
        Err(_) => Ok(0),
    }
}
