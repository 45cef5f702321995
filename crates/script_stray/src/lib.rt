// Which line of a script has bytes over 127 where none may be. Before its `#` there may be none; behind it, in the clerk's own language,
// those of well-formed UTF-8 (RFC 3629).
#![tactic(auto)]

ghost use Rattle.std.specs.Prelude.{◌≡◌, ◌==◌, ◌||◌, true, false, eqb, drop, fold, position};
ghost use Rattle.script_words.specs.Words.{until};
ghost use Rattle.script_utf8.specs.Utf8.{after_first, sequences};
ghost use Rattle.script_stray.specs.Stray.{stray_line, line_told, has_over};
ghost use Rattle.script_stray.specs.Walk.{spot_of, spot_after, spot_ends, words_plain};

// Where the walk over a line stands: before its `#`; in its comment, between two characters; inside one, where a byte from `low` to `high`
// must come and `more` continuation bytes behind it; or behind a byte that may not be there.
#[derive(Clone, Copy)]
enum Spot {
    Words,
    Between,
    Inside { more: u8, low: u8, high: u8 },
    Astray,
}

const LINE_FEED: u8 = 10;

const HASH: u8 = 35;

// Inside a character.
fn inside(more: u8, low: u8, high: u8) -> Spot
    ensures { result ≡ Spot.Inside more low high }
{
    Spot::Inside { more, low, high }
}

// What a character's first byte awaits, by the table of RFC 3629: nothing overlong, no surrogate, nothing over 0x10FFFF.
#[tactic(auto, using(crate::proofs::Table::row_00, crate::proofs::Table::row_c2, crate::proofs::Table::row_e0, crate::proofs::Table::row_e1, crate::proofs::Table::row_ed, crate::proofs::Table::row_ee, crate::proofs::Table::row_f0, crate::proofs::Table::row_f1, crate::proofs::Table::row_f4, crate::proofs::Table::row_low, crate::proofs::Table::row_high))]
fn after_first(byte: u8) -> Spot
    ensures { result ≡ spot_of (after_first byte sequences) }
{
    match byte {
        0..=0x7F => Spot::Between,
        0xC2..=0xDF => inside(0, 0x80, 0xBF),
        0xE0 => inside(1, 0xA0, 0xBF),
        0xE1..=0xEC => inside(1, 0x80, 0xBF),
        0xED => inside(1, 0x80, 0x9F),
        0xEE..=0xEF => inside(1, 0x80, 0xBF),
        0xF0 => inside(2, 0x90, 0xBF),
        0xF1..=0xF3 => inside(2, 0x80, 0xBF),
        0xF4 => inside(2, 0x80, 0x8F),
        _ => Spot::Astray,
    }
}

// Behind a byte inside a character.
#[tactic(auto, using(crate::proofs::Table::too_low, crate::proofs::Table::too_high, crate::proofs::Table::last, crate::proofs::Table::onward))]
fn after_inside(more: u8, low: u8, high: u8, byte: u8) -> Spot
    ensures { result ≡ spot_after (Spot.Inside more low high) byte }
{
    if byte < low || high < byte {
        return Spot::Astray;
    }
    if more == 0 {
        return Spot::Between;
    }
    inside(more - 1, 0x80, 0xBF)
}

// Behind a byte before the `#`.
#[tactic(auto, using(crate::proofs::Table::over, crate::proofs::Table::hash, crate::proofs::Table::other))]
fn after_word(byte: u8) -> Spot
    ensures { result ≡ spot_after Spot.Words byte }
{
    match byte {
        HASH => Spot::Between,
        0..=127 => Spot::Words,
        _ => Spot::Astray,
    }
}

impl Spot {
    // Behind one byte more of the line.
    #[tactic(auto, unfolding(crate::specs::Walk::spot_after))]
    fn after(self, byte: u8) -> Spot
        ensures { result ≡ spot_after self byte }
    {
        match self {
            Spot::Words => after_word(byte),
            Spot::Between => after_first(byte),
            Spot::Inside { more, low, high } => after_inside(more, low, high, byte),
            Spot::Astray => Spot::Astray,
        }
    }

    // Whether a line may end there.
    #[tactic(auto, unfolding(crate::specs::Walk::spot_ends))]
    fn ends(self) -> bool
        ensures { result ≡ spot_ends self }
    {
        matches!(self, Spot::Words | Spot::Between)
    }
}

// The first stray line, by a walk with its spot by value.
fn walk(text: &[u8]) -> Option<usize>
    ensures { result ≡ line_told (stray_line text.now) }
{
    let mut number: usize = 1;
    let mut spot = Spot::Words;
    for byte in text {
        if *byte != LINE_FEED {
            spot = spot.after(*byte);
        } else if spot.ends() {
            number += 1;
            spot = Spot::Words;
        } else {
            return Some(number);
        }
    }
    if spot.ends() { None } else { Some(number) }
}

// Whether no byte is over 127. All bytes are gathered before one test, many of them at a time: a loop
// that could end early would take one after the other.
#[tactic(auto, using(crate::proofs::Plain::none_over))]
fn ascii(text: &[u8]) -> bool
    ensures { result ≡ true → has_over text.now ≡ false }
{
    text.iter().fold(0, |gathered, byte| gathered | byte) < 128
}

// So many bytes of a comment are looked at together.
const BLOCK: usize = 16;

// Whether a line feed is among the bytes of a block: all are gathered before one test.
fn has_feed(block: &[u8; BLOCK]) -> bool
    ensures { result ≡ fold (λ hit byte. hit || (byte == 10)) false block.now }
{
    block
        .iter()
        .fold(false, |hit, byte| hit | (*byte == LINE_FEED))
}

// The place of the first line feed.
fn find_feed(text: &[u8]) -> Option<usize>
    ensures { result ≡ position (λ byte. byte == 10) text.now }
{
    text.iter().position(|byte| *byte == LINE_FEED)
}

// What stands behind a comment: its line feed and all after it, or nothing. Blocks without a line feed are passed first.
fn behind_comment<'a>(text: &'a [u8]) -> &'a [u8]
    ensures { result.now ≡ drop (until (eqb 10) text.now) text.now }
{
    let mut rest = text;
    while let Some((block, more)) = rest.split_first_chunk::<BLOCK>() {
        if has_feed(block) {
            break;
        }
        rest = more;
    }
    let feed = find_feed(rest).unwrap_or(rest.len());
    &rest[feed..]
}

// Whether no byte over 127 stands before a line's `#`. What is behind it is passed over, up to the line feed.
#[tactic(auto, using(crate::proofs::Plain::over, crate::proofs::Plain::other, crate::proofs::Plain::passed, crate::proofs::Plain::all_passed))]
fn words_plain(text: &[u8]) -> bool
    ensures { result ≡ words_plain false text.now }
{
    let mut rest = text;
    while let Some((byte, more)) = rest.split_first() {
        if 127 < *byte {
            return false;
        }
        rest = if *byte == HASH {
            behind_comment(more)
        } else {
            more
        };
    }
    true
}

// The number of the first line of a text that has a byte over 127 before its `#` or ill-formed UTF-8 behind it. Most texts have none and are
// told by quick tests: one with no byte over 127, and one that is surely UTF-8 with plain words. Any other is walked over.
pub fn stray_line(text: &[u8]) -> Option<usize>
    ensures { result ≡ line_told (stray_line text.now) }
{
    if ascii(text) {
        return None;
    }
    if script_utf8::surely(text) && words_plain(text) {
        return None;
    }
    walk(text)
}
