// The whole of an input, in as many reads as it comes in: a pipe, a terminal and a file hand out what they have, and only the end of the
// input ends it. What is read no contract can say, since none says what a read puts there; how much of the lent bytes was filled is said.
#![tactic(auto)]

ghost use Rattle.std.specs.Prelude.{◌≤◌, length, IfOk};

use std::io::{self, Read};

// Reads to the end of the input, or until buf is full: a caller who must know that there is no more lends a byte more than it takes. How many
// bytes were read, or why a read failed.
pub fn read_all<R: Read>(from: &mut R, buf: &mut [u8]) -> io::Result<usize>
    ensures { IfOk result (λ filled. filled ≤ length buf.new) }
{
    let mut done: usize = 0;
    while done < buf.len() {
        match from.read(&mut buf[done..])? {
            0 => break,
            count => done += count,
        }
    }
    Ok(done)
}
