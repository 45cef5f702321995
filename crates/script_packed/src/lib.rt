// parse_script for a caller that has words alone: its answer in one word.
#![tactic(auto)]

ghost use Rattle.std.specs.Prelude.{◌≡◌, ◌<◌, length, Err};
ghost use Rattle.script.specs.Scripts.{refusal_byte, script_answer, script_words};
ghost use Rattle.script_packed.specs.Packing.{byte_factor, answer_word};

use script::Refused;

// What a refusal's number, the reason of a number gone bad and the byte where it did are multiplied by. The line stands lowest.
const NUMBER_FACTOR: u64 = 0x100_0000_0000_0000;

const WHY_FACTOR: u64 = 0x1_0000_0000_0000;

const BYTE_FACTOR: u64 = 0x100_0000;

// Reads a script into the lent words, three for each event. Answers how many events there are or, for a refusal, its number, its line and,
// for a tick or an id that is no number, why and at which byte of the word.
// Kept: one number in place of a Result, for the C interface (bellmantle_parse_script).
pub fn parse_script(text: &[u8], events: &mut [u64]) -> u64
    ensures answer { result ≡ answer_word (script_answer text.now (length events.old)) }
    ensures words { events.new ≡ script_words text.now events.old }
{
    match script::parse_script(text, events) {
        Ok(count) => count as u64,
        Err(refused) => packed(refused),
    }
}

// A refusal in one word.
fn packed(refused: Refused) -> u64
    requires { (refusal_byte refused.refusal < byte_factor) × (refused.line < byte_factor) }
    ensures { result ≡ answer_word (Err refused) }
{
    let refusal = refused.refusal;
    let number = refusal.number() * NUMBER_FACTOR;
    let why = refusal.why() * WHY_FACTOR;
    let byte = refusal.byte() as u64 * BYTE_FACTOR;
    number + why + byte + refused.line as u64
}
