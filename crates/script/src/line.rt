// One line of a fault script.
ghost use Rattle.std.specs.Prelude.{◌≡◌};
ghost use Rattle.script_words.specs.Words.{line_words, words_from};
ghost use Rattle.script.specs.Lines.{line_says, of_words, with_fault};
ghost use Rattle.script.specs.Scripts.{script_refusal, refusal_why, refusal_byte};

use crate::fault;
use crate::fault::Fault;
use numeral::Flaw;
use script_words::reader::Reader;

// Why a script is refused, in the order in which it is tested.
#[derive(Clone, Copy, Debug, PartialEq, Eq)]
pub enum Refusal {
    // The text is over 65,536 bytes.
    TooLong,
    // A byte is over 127 before a line's `#`, or what stands behind it is no UTF-8.
    BadByte,
    // A line has only one word.
    OneWord,
    // The first word is no number.
    BadTick(Flaw),
    // The second word names no fault.
    UnknownFault,
    // The fault needs an id.
    MissingId,
    // The id is no number.
    BadId(Flaw),
    // There is one event more than the room lent.
    NoRoom,
}

impl Refusal {
    // A refusal's number.
    pub fn number(self) -> u64
        ensures { result ≡ script_refusal self }
    {
        match self {
            Refusal::TooLong => 1,
            Refusal::BadByte => 2,
            Refusal::OneWord => 3,
            Refusal::BadTick(_) => 4,
            Refusal::UnknownFault => 5,
            Refusal::MissingId => 6,
            Refusal::BadId(_) => 7,
            Refusal::NoRoom => 8,
        }
    }

    // The reason's number for a tick or an id that is no number; 0 for any other refusal.
    // Kept: bellmantle_parse_script's word has a place for it, and for the byte, which is 0 there (refusal_why, refusal_byte).
    pub fn why(self) -> u64
        ensures { result ≡ refusal_why self }
    {
        match self {
            Refusal::BadTick(flaw) | Refusal::BadId(flaw) => flaw.why.number(),
            _ => 0,
        }
    }

    // At which byte of its word that tick or id went bad, counted from 0; 0 for any other refusal.
    pub fn byte(self) -> usize
        ensures { result ≡ refusal_byte self }
    {
        match self {
            Refusal::BadTick(flaw) | Refusal::BadId(flaw) => flaw.byte,
            _ => 0,
        }
    }
}

// What is injected, and at which tick.
#[derive(Clone, Copy, Debug, PartialEq, Eq)]
pub struct Event {
    pub tick: u64,
    pub fault: Fault,
}

// What a line of a script says: nothing, an event, or why it is refused. Its comment begins at the first `#`.
pub fn parse_line(line: &[u8]) -> Result<Option<Event>, Refusal>
    ensures { result ≡ line_says line.now }
{
    let end = script_words::find(line, b'#', 0);
    parse_words(&line[..end])
}

// What the words of a line say.
fn parse_words(line: &[u8]) -> Result<Option<Event>, Refusal>
    ensures { result ≡ of_words (line_words line.now) }
{
    let mut words = Reader::new(line);
    let Some(word) = words.next() else {
        return Ok(None);
    };
    let Some(name) = words.next() else {
        return Err(Refusal::OneWord);
    };
    let tick = numeral::read(word).map_err(Refusal::BadTick)?;
    let Some(fault) = fault::fault_of(name) else {
        return Err(Refusal::UnknownFault);
    };
    parse_id(tick, fault, words)
}

// A fault with the id that the next word says, where it needs one.
fn parse_id(tick: u64, fault: Fault, mut words: Reader<'_>) -> Result<Option<Event>, Refusal>
    ensures { result ≡ with_fault tick fault (words_from words.entry.line.now words.entry.at) }
{
    if !fault.needs_id() {
        return Ok(Some(Event { tick, fault }));
    }
    let Some(word) = words.next() else {
        return Err(Refusal::MissingId);
    };
    let id = numeral::read(word).map_err(Refusal::BadId)?;
    let fault = fault.with_id(id);
    Ok(Some(Event { tick, fault }))
}
