// What the program `faults` writes, made from the bytes that it read: the whole of the program but for
// reading and writing.
#![tactic(auto)]

mod page;

ghost use Rattle.std.specs.Prelude.{◌≡◌, length};
ghost use Rattle.script_report.specs.Report.{enough, report_of, bytes_after};

use page::Page;

// The most events that the program takes, and the words lent to the reader for them.
const EVENTS: usize = 2048;

const ROOM: usize = 3 * EVENTS;

// The bytes that are always enough: 28 for the line of the count, and 66 for each event. A refusal's lines take far fewer.
pub const ENOUGH: usize = 28 + 66 * EVENTS;

// Room for every report. The contract gives its length alone, which is all that lending it asks.
pub fn room() -> [u8; ENOUGH]
    ensures { enough ≡ length result }
{
    [0; ENOUGH]
}

// Reads a script and writes what it says to the front of `out`. The answer is the number of bytes, or none where nothing is written,
// for want of room.
#[tactic(auto, using(crate::proofs::Within::no_room, crate::proofs::Within::bytes_stay))]
pub fn report(text: &[u8], out: &mut [u8]) -> Option<usize>
    ensures answer { result ≡ report_of text.now (length out.old) }
    ensures bytes { out.new ≡ bytes_after text.now out.old }
{
    if out.len() < ENOUGH {
        return None;
    }
    let mut page = Page { out, at: 0 };
    let mut events = [0u64; ROOM];
    match script::parse_script(text, &mut events) {
        Ok(count) => {
            page.put_events(&events[..3 * count]);
            Some(page.at)
        }
        Err(refused) => {
            page.put_refusal(refused);
            Some(page.at)
        }
    }
}
