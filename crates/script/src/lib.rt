// Fault scripts: what to inject, and at which tick. The names are the Rust's.
#![tactic(auto)]

pub mod fault;
pub mod line;

ghost use Rattle.std.specs.Prelude.{◌≡◌, ◌+◌, ◌*◌, ◌/◌, ◌≤◌, length, Ok, Some, IsOk};
ghost use Rattle.basis.specs.Basis.{laid};
ghost use Rattle.order.specs.Order.{event_words};
ghost use Rattle.script.specs.Lines.{line_says};
ghost use Rattle.script.specs.Scripts.{longest, held_words, lines_judged, judged_line, said, line_events, events_of, script_answer, words_given, script_words};

use line::{Event, Refusal};

// Why a script is refused, and at which line, counted from 1; a text that is too long is so at line 0.
#[derive(Clone, Copy, Debug, PartialEq, Eq)]
pub struct Refused {
    pub refusal: Refusal,
    pub line: usize,
}

// The most bytes that a text may have.
pub const LONGEST: usize = 65536;

// A text of at most so many bytes is read with fewer words to clear.
const SHORT: usize = 1024;

const MIDDLE: usize = 8192;

// Three words for each event that so many bytes can hold: one for nine bytes, the last line's LF left out (proofs/Most). Of the longest
// text that is 7,281 events.
const HELD_SHORT: usize = 3 * ((SHORT + 1) / 9);

const HELD_MIDDLE: usize = 3 * ((MIDDLE + 1) / 9);

const HELD: usize = 3 * ((LONGEST + 1) / 9);

// One line, with `found` events before it and room for `room` in all: how many events there are up to its end. Its event, if it
// has one, is written behind them.
fn read_line(line: &[u8], held: &mut [u64], found: usize, room: usize) -> Result<usize, Refusal>
    requires { 3 * (found + length (line_events (line_says line.now))) ≤ length held.old }
    ensures answer { result ≡ judged_line room found (line_says line.now) }
    ensures words { IsOk result → held.new ≡ laid held.old (3 * found) (event_words (line_events (line_says line.now))) }
{
    let Some(event) = line::parse_line(line)? else {
        return Ok(found);
    };
    if room <= found {
        return Err(Refusal::NoRoom);
    }
    put_event(held, found, event);
    Ok(found + 1)
}

// Writes an event behind `count` others.
fn put_event(events: &mut [u64], count: usize, event: Event)
    requires { 3 * (count + 1) ≤ length events.old }
    ensures { events.new ≡ laid events.old (3 * count) (event_words (line_events (Ok (Some event)))) }
{
    let place = 3 * count;
    let words = [event.tick, event.fault.number(), event.fault.id()];
    events[place..place + 3].copy_from_slice(&words);
}

// Reads the lines, and tells how many events they have. The events of a script that is accepted then stand at the front of the held
// words, in file order.
fn read_lines(text: &[u8], held: &mut [u64], room: usize) -> Result<usize, Refused>
    requires { (length text.now ≤ longest) × (held_words (length text.now) ≤ length held.old) }
    ensures answer { result ≡ lines_judged room 1 0 (said text.now) }
    ensures words { IsOk result → held.new ≡ laid held.old 0 (event_words (events_of (said text.now))) }
{
    let mut found = 0;
    let mut line = 1;
    let mut at = 0;
    while at <= text.len() {
        let end = script_words::find(text, b'\n', at);
        found = read_line(&text[at..end], held, found, room).map_err(|refusal| Refused {
            refusal,
            line,
        })?;
        line += 1;
        at = end + 1;
    }
    Ok(found)
}

// The script of a text with no more bytes than may be and none astray. Its events are held apart
// until the last line was read, for a refusal leaves the lent words as they came. N words are enough for those of
// a text of this length.
fn read_within<const N: usize>(text: &[u8], events: &mut [u64]) -> Result<usize, Refused>
    requires { (length text.now ≤ longest) × (held_words (length text.now) ≤ N) × (N ≤ held_words longest) }
    ensures answer { result ≡ lines_judged (length events.old / 3) 1 0 (said text.now) }
    ensures words { events.new ≡ words_given result text.now events.old }
{
    let mut held = [0u64; N];
    let count = read_lines(text, &mut held, events.len() / 3)?;
    let end = 3 * count;
    events[..end].copy_from_slice(&held[..end]);
    order::sort(events, count, &mut held);
    Ok(count)
}

// Reads a script with one `TICK FAULT` on a line, `#` starting a comment, into the lent words: three
// for each event, tick, fault and id, sorted by tick. After a look for bytes over 127 it reads each
// line once and then sorts, n events in n log n steps at most, whatever their order (crate order).
// The answer is the number of events.
pub fn parse_script(text: &[u8], events: &mut [u64]) -> Result<usize, Refused>
    ensures answer { result ≡ script_answer text.now (length events.old) }
    ensures words { events.new ≡ script_words text.now events.old }
{
    if LONGEST < text.len() {
        return Err(Refused {
            refusal: Refusal::TooLong,
            line: 0,
        });
    }
    if let Some(line) = script_stray::stray_line(text) {
        return Err(Refused {
            refusal: Refusal::BadByte,
            line,
        });
    }
    match text.len() {
        0..=SHORT => read_within::<HELD_SHORT>(text, events),
        0..=MIDDLE => read_within::<HELD_MIDDLE>(text, events),
        _ => read_within::<HELD>(text, events),
    }
}
