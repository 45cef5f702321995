// The program `faults`: a fault script on standard input, what it says on standard output. What is
// written is script_report's to say; here it is only read and written.
#![tactic(auto)]

ghost use Rattle.std.specs.Prelude.{◌≡◌, ◌+◌, length};
ghost use Rattle.script.specs.Scripts.{longest};

use std::io::{self, Write};

// The longest script and one byte more, so that a longer one is seen to be.
const TEXT: usize = script::LONGEST + 1;

// Room for the text, by a function: a caller knows its length from its type, and not that it is zeros.
fn room() -> [u8; TEXT]
    ensures { longest + 1 ≡ length result }
{
    [0; TEXT]
}

fn main(rt: HostRuntime) -> io::Result<()> {
    let mut text = room();
    let length = match input::read_all(&mut rt.stdin(), &mut text) {
        Ok(length) => length,
        Err(error) => return eprintln!(rt; "faults: standard input: {error}"),
    };
    let mut out = script_report::room();
    let Some(written) = script_report::report(&text[..length], &mut out) else {
        return Ok(());
    };
    if let Err(error) = rt.stdout().write_all(&out[..written]) {
        return eprintln!(rt; "faults: standard output: {error}");
    }
    Ok(())
}
