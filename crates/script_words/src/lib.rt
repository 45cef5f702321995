// Words of a line: where they start and end. It stands where the Rust has split_whitespace.
#![tactic(auto)]

pub mod reader;

ghost use Rattle.std.specs.Prelude.{◌≡◌, ℕ, Bool, ◌+◌, ◌≤◌, eqb, length, drop};
ghost use Rattle.script_words.specs.Words.{is_space, not_space, until, Stops, word_from};

// A word's place in its line. A word that is missing is empty and stands at the line's end.
#[derive(Clone, Copy, Debug, PartialEq, Eq)]
pub struct Bounds {
    pub start: usize,
    pub end: usize,
}

// White space is tab, line feed, vertical tab, form feed, carriage return and the space.
#[tactic(auto, unfolding(crate::specs::Words::is_space))]
pub fn is_space(b: u8) -> bool
    ensures { result ≡ is_space b }
{
    matches!(b, b'\t'..=b'\r' | b' ')
}

// The place of the first byte at or after `from` at which a test stops, or the text's length where it stops at none.
fn first_from<F: Fn(u8) -> bool>(text: &[u8], from: usize, stops: F) -> usize
    requires within { from ≤ length text.now }
    requires callable { F.IsAlwaysCallable stops }
    ensures { (stop : ℕ → Bool) → Stops (F.post stops) stop → result ≡ from + until stop (drop from text.now) }
{
    for i in from..text.len() {
        if stops(text[i]) {
            return i;
        }
    }
    text.len()
}

// The place of the first such byte at or after `from`, or the text's length where there is none.
pub fn find(text: &[u8], byte: u8, from: usize) -> usize
    requires { from ≤ length text.now }
    ensures { result ≡ from + until (eqb byte) (drop from text.now) }
{
    first_from(text, from, |b| byte == b)
}

// The first word at or after a place.
pub fn word_from(line: &[u8], place: usize) -> Bounds
    requires { place ≤ length line.now }
    ensures { result ≡ word_from line.now place }
{
    let start = first_from(line, place, |b| !is_space(b));
    let end = first_from(line, start, is_space);
    Bounds { start, end }
}
