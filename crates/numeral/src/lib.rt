// A number from the bytes of a word, where the Rust has u64's FromStr, and a number to plain decimal
// bytes. No input is guessed at: `1,500` is bad at its comma, and is neither 1500 nor 1.
#![tactic(auto)]

ghost use Rattle.std.specs.Prelude.{◌≡◌, ◌+◌, ◌≤◌, ◌<◌, length};
ghost use Rattle.numeral.specs.Digits.{last_digits};
ghost use Rattle.numeral.specs.Reading.{why_number, sign_bytes, number_of, with_digit};
ghost use Rattle.basis.specs.Basis.{laid};
ghost use Rattle.numeral.specs.Writing.{digit_count, written_of, out_of};

// Why a word is no number.
#[derive(Clone, Copy, Debug, PartialEq, Eq)]
pub enum Why {
    // It ends before any digit.
    NoDigit,
    // A byte is no digit.
    StrayByte,
    // A digit makes it 2^64 or more.
    TooLarge,
}

impl Why {
    // The reason's number.
    pub fn number(self) -> u64
        ensures { result ≡ why_number self }
    {
        match self {
            Why::NoDigit => 1,
            Why::StrayByte => 2,
            Why::TooLarge => 3,
        }
    }
}

// Why a word is no number, and at which place, counting its bytes from 0. A digit that is missing is missing at
// the word's end.
#[derive(Clone, Copy, Debug, PartialEq, Eq)]
pub struct Flaw {
    pub why: Why,
    pub byte: usize,
}

// The number that a word says: an optional single `+`, then one or more digits, at most 2^64 - 1. The first
// byte with which no number can go on is told.
#[tactic(auto, using(crate::proofs::Stopping::no_digit, crate::proofs::Stopping::reads_on, crate::proofs::Stopping::stops, crate::proofs::Stopping::ends))]
pub fn read(word: &[u8]) -> Result<u64, Flaw>
    ensures { result ≡ number_of word.now }
{
    let from = sign_bytes(word);
    if word.len() <= from {
        return Err(Flaw {
            why: Why::NoDigit,
            byte: from,
        });
    }
    let mut value: u64 = 0;
    for byte in from..word.len() {
        value = with_digit(value, word[byte]).map_err(|why| Flaw { why, byte })?;
    }
    Ok(value)
}

// How many bytes the `+` takes that a word may begin with.
#[tactic(auto, unfolding(crate::specs::Reading::sign_bytes))]
fn sign_bytes(word: &[u8]) -> usize
    ensures { result ≡ sign_bytes word.now }
{
    usize::from(word.first() == Some(&b'+'))
}

// A number with one more digit behind it, or why there is none. No product or sum wraps.
#[tactic(auto, unfolding(crate::specs::Reading::with_digit, crate::specs::Digits::is_digit))]
fn with_digit(value: u64, byte: u8) -> Result<u64, Why>
    ensures { result ≡ with_digit value byte }
{
    if byte < b'0' || b'9' < byte {
        return Err(Why::StrayByte); // the comma of `1,500` among others
    }
    let tens = value.checked_mul(10).ok_or(Why::TooLarge)?;
    tens.checked_add(u64::from(byte - b'0'))
        .ok_or(Why::TooLarge)
}

// Writes n as plain decimal bytes at a place of `out`, and tells the place after its last digit. Where they do not
// fit nothing is written.
pub fn write(n: u64, out: &mut [u8], place: usize) -> Option<usize>
    ensures answer { result ≡ written_of n (length out.old) place }
    ensures bytes { out.new ≡ out_of n out.old place }
{
    let count = count_digits(n);
    let end = place.checked_add(count)?;
    if out.len() < end {
        return None;
    }
    put_digits(n, out, place, count);
    Some(end)
}

// How many digits n has: 1 to 20.
fn count_digits(n: u64) -> usize
    ensures { result ≡ digit_count 19 n }
{
    n.checked_ilog10().map_or(1, |tens| tens as usize + 1)
}

// The last `count` digits of n at a place, from the last one on.
fn put_digits(n: u64, out: &mut [u8], place: usize, count: usize)
    requires { place + count ≤ length out.old }
    ensures { out.new ≡ laid out.old place (last_digits count n) }
{
    let mut left = n;
    for i in (0..count).rev() {
        out[place + i] = b'0' + (left % 10) as u8;
        left /= 10;
    }
}
