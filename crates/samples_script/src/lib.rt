// The calls on fault scripts in a sample: the rows that they are lent, the call, and what is compared after it.
#![tactic(auto)]

ghost use Rattle.std.specs.Prelude.{◌≡◌, ◌<◌, ◌≤◌, length, replicate, OnSome};

use samples_list::{Call, Edit, Family, List, Met, Row};

// How long each row is: the text in bytes, the events in words.
const BYTES: usize = 65600;

const WORDS: usize = 6200;

// Where a refusal's number begins in an answer: below it stand why and where a number went bad, and the line.
const NUMBER_BIT: u32 = 56;

// The rows 0 and 1: the text that is lent and the words that are expected of it, and the events.
#[derive(Drop)]
pub struct Scripts {
    text: [u8; BYTES],
    expected: [u64; BYTES],
    events: Row<WORDS>,
}

impl Scripts {
    pub fn new() -> Scripts
        ensures text { result.text ≡ replicate 65600 0 }
        ensures expected { result.expected ≡ replicate 65600 0 }
        ensures events { (result.events.lent ≡ replicate 6200 0) × (result.events.expected ≡ replicate 6200 0) }
    {
        Scripts {
            text: [0; BYTES],
            expected: [0; BYTES],
            events: Row::new(),
        }
    }

    // Changes words of the text. A lent word over 255 is no byte, and ends the replay.
    fn write(&mut self, edit: Edit, list: &mut List<'_>) -> Option<()>
        ensures { length list.new.rest.now ≤ length list.old.rest.now }
    {
        edit.change(&mut self.expected, list)?;
        if edit.lent {
            let end = edit.end(BYTES)?;
            let (text, expected) = (&mut self.text[..], &self.expected[..]);
            put_bytes(&mut text[edit.at..end], &expected[edit.at..end])?;
        }
        Some(())
    }
}

// Words put into bytes, which each of them has to be.
fn put_bytes(bytes: &mut [u8], words: &[u64]) -> Option<()> {
    for (byte, word) in bytes.iter_mut().zip(words) {
        *byte = u8::try_from(*word).ok()?;
    }
    Some(())
}

impl Family for Scripts {
    fn edit(&mut self, edit: Edit, list: &mut List<'_>) -> Option<()> {
        match edit.row {
            0 => self.write(edit, list),
            1 => self.events.edit(edit, list),
            _ => None,
        }
    }

    // The one call, 0. Its answer is how many events there are, or has the refusal's number above the rest.
    fn call(&mut self, call: Call) -> Option<Met> {
        if call.which != 0 {
            return None;
        }
        let text = self.text.get(..call.numbers[0] as usize)?;
        let events = self.events.lent.get_mut(..call.numbers[1] as usize)?;
        let answer = bellmantle::bellmantle_parse_script(text, events);
        Some(Met {
            same: answer == call.answer && self.events.agrees(),
            refusal: answer >> NUMBER_BIT,
            outcome: u64::from(answer != 0),
        })
    }
}
