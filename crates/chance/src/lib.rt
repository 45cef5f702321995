// Probabilities: which ones are good, by comparison; their 64 bits and back; and a yes or no draw on
// one with words that the host lends. It stands where the Rust has gen_bool of rand 0.8.
#![tactic(auto)]

ghost use Rattle.std.specs.Prelude.{◌≡◌, false, T};
ghost use Rattle.std.specs.Float.{binary64};
ghost use Rattle.std.specs.Float.Ieee.{to_bits, of_bits};
ghost use Rattle.chance.specs.Probability.{good_word, good_probability, is_one, threshold_of};
ghost use Rattle.chance.specs.Draw.{gen_bool, gen_bool_in_send};

// What a draw answers, and the place of the next word: a draw that used one stands one further.
#[derive(Clone, Copy, Debug, PartialEq, Eq)]
pub struct Draw {
    pub yes: bool,
    pub next: usize,
}

// 0 <= p <= 1, and no NaN.
#[tactic(auto, using(crate::proofs::GoodByComparison::compared_then, crate::proofs::GoodByComparison::compared_else))]
pub fn good(p: f64) -> bool
    ensures { result ≡ good_probability p }
{
    0.0 <= p && p <= 1.0
}

// Whether a word is the bits of a good probability.
pub fn good_word(word: u64) -> bool
    ensures { result ≡ good_word word }
{
    word <= 0x3ff0_0000_0000_0000 || word == 0x8000_0000_0000_0000
}

// The probability of a word that was tested good.
pub fn of_word(word: u64) -> f64
    requires { T (good_word word) }
    ensures { (result ≡ of_bits binary64 word) × (to_bits binary64 result ≡ word) × T (good_probability result) }
{
    f64::from_bits(word)
}

// The word of a good probability: negative zero keeps its sign.
pub fn word_of(p: f64) -> u64
    requires { T (good_probability p) }
    ensures { (result ≡ to_bits binary64 p) × (of_bits binary64 result ≡ p) × T (good_word result) }
{
    f64::to_bits(p)
}

// The whole part of p * 2^64, for a good p other than 1. The exponent's mask leaves out the sign, which
// negative zero has.
#[tactic(auto, using(crate::proofs::ThresholdByShifts::cut_up, crate::proofs::ThresholdByShifts::cut_down, crate::proofs::ThresholdByShifts::cut_off, crate::proofs::ThresholdByShifts::exponent_lt, crate::proofs::ThresholdByShifts::exponent_is, crate::proofs::ThereAndBack::no_nan))]
fn threshold(p: f64) -> u64
    requires t { T (good_probability p) }
    requires p_value { is_one p ≡ false }
    ensures { result ≡ threshold_of (to_bits binary64 p) }
{
    let bits = f64::to_bits(p);
    let e = (bits >> 52) & 0x7ff;
    let m = (bits & 0xf_ffff_ffff_ffff) | 0x10_0000_0000_0000;
    if e >= 1011 {
        return m << (e - 1011);
    }
    if e >= 959 {
        return m >> (1011 - e);
    }
    0
}

// A draw on p with the word at a place of the list: 1 answers yes without one. None: there is no word at the place.
pub fn gen_bool(p: f64, draws: &[u64], place: usize) -> Option<Draw>
    requires { T (good_probability p) }
    ensures { result ≡ gen_bool p draws.now place }
{
    if p == 1.0 {
        return Some(Draw {
            yes: true,
            next: place,
        });
    }
    let word = *draws.get(place)?;
    Some(Draw {
        yes: word < threshold(p),
        next: place + 1,
    })
}

// The same where a message is sent: there 0, of either sign, answers no without a word.
pub fn gen_bool_in_send(p: f64, draws: &[u64], place: usize) -> Option<Draw>
    requires { T (good_probability p) }
    ensures { result ≡ gen_bool_in_send p draws.now place }
{
    if p == 0.0 {
        return Some(Draw {
            yes: false,
            next: place,
        });
    }
    gen_bool(p, draws, place)
}
