// The plants as the host lends them: the 49 words of a state, read and written, and what they answer by themselves; the fault and the
// sender of a number. A state is n; a flag for each of 15 plants that it is up; a flag for each that it is partitioned; for each the tick
// until which it is stable; crashes, restarts, reboots.
#![tactic(auto)]

ghost use Rattle.std.specs.Prelude.{◌≡◌, ◌++◌, ◌+◌, ◌≤◌, take, drop};
ghost use Rattle.basis.specs.Basis.{most};
ghost use Rattle.plants.specs.Refusals.{answer_number};
ghost use Rattle.plants_layout.specs.Layout.{state_size, flags_in, flag_words_fit, ticks_in, plants_in, state_words, bits, shape_tested, shaped, fault_in, origin_in};

use basis::MOST;
use plants::refusal::Refusal;
use plants::{Origin, Plants};
use script::fault::Fault;

// Where the parts of a state begin, and how many words it has.
pub const UP: usize = 1;

pub const PARTITIONED: usize = UP + MOST;

const STABLE: usize = PARTITIONED + MOST;

pub const CRASHES: usize = STABLE + MOST;

pub const RESTARTS: usize = CRASHES + 1;

pub const REBOOTS: usize = RESTARTS + 1;

pub const WORDS: usize = REBOOTS + 1;

// The 15 flags from a word on.
fn flags_at(words: &[u64; WORDS], at: usize) -> [bool; MOST]
    requires { at + most ≤ state_size }
    ensures { result ≡ flags_in (take most (drop at words.now)) }
{
    let mut flags = [false; MOST];
    for (i, flag) in flags.iter_mut().enumerate() {
        *flag = words[at + i] == 1;
    }
    flags
}

// The 15 ticks.
fn ticks_of(words: &[u64; WORDS]) -> [u64; MOST]
    ensures { result ≡ ticks_in words.now }
{
    let mut ticks = [0u64; MOST];
    ticks.copy_from_slice(&words[STABLE..CRASHES]);
    ticks
}

// Whether the words of the flags are 0 or 1: all of them gathered in one word, with no branch for each.
fn flags_fit(words: &[u64; WORDS]) -> bool
    ensures { result ≡ flag_words_fit words.now }
{
    words[UP..STABLE]
        .iter()
        .fold(0, |gathered, word| gathered | *word)
        <= 1
}

// The state of the words.
pub fn load(words: &[u64; WORDS]) -> Plants
    ensures { result ≡ plants_in words.now }
{
    Plants {
        n: words[0] as usize,
        up: flags_at(words, UP),
        partitioned: flags_at(words, PARTITIONED),
        stable_until: ticks_of(words),
        crashes: words[CRASHES],
        restarts: words[RESTARTS],
        reboots: words[REBOOTS],
    }
}

// Flags written from a word on.
fn put_flags(words: &mut [u64; WORDS], at: usize, flags: &[bool; MOST])
    requires { at + most ≤ state_size }
    ensures { words.new ≡ take at words.old ++ (bits flags.now ++ drop (at + most) words.old) }
{
    for (i, flag) in flags.iter().enumerate() {
        words[at + i] = u64::from(*flag);
    }
}

// The words of a state.
pub fn store(plants: Plants, words: &mut [u64; WORDS])
    ensures { words.new ≡ state_words plants }
{
    words[0] = plants.n as u64;
    put_flags(words, UP, &plants.up);
    put_flags(words, PARTITIONED, &plants.partitioned);
    words[STABLE..CRASHES].copy_from_slice(&plants.stable_until);
    words[CRASHES] = plants.crashes;
    words[RESTARTS] = plants.restarts;
    words[REBOOTS] = plants.reboots;
}

// What the words themselves answer, before the state is looked at: 40, and then 42 for a flag that is neither 0 nor 1.
#[tactic(auto, unfolding(crate::specs::Layout::shaped, crate::specs::Layout::shape_tested))]
pub fn shape(words: &[u64; WORDS]) -> Result<(), Refusal>
    ensures tested { result ≡ shape_tested words.now }
    ensures number { answer_number result ≡ shaped words.now }
{
    if !basis::plant_count(words[0] as usize) {
        return Err(Refusal::PlantCount);
    }
    if !flags_fit(words) {
        return Err(Refusal::IllFormed);
    }
    Ok(())
}

// The fault of a number from 0 to 5.
// Kept: no Option, since fault_of and origin_of may not come to fail.
#[tactic(auto, unfolding(crate::specs::Layout::fault_in))]
pub fn fault_of(number: u64, id: u64) -> Fault
    requires { number ≤ 5 }
    ensures { result ≡ fault_in number id }
{
    match number {
        0 => Fault::Crash(id),
        1 => Fault::Restart(id),
        2 => Fault::Reboot(id),
        3 => Fault::Partition(id),
        4 => Fault::Heal(id),
        _ => Fault::HealAll,
    }
}

// The sender of a sort, 0 or 1.
#[tactic(auto, unfolding(crate::specs::Layout::origin_in))]
pub fn origin_of(sort: u64, id: u64) -> Origin
    requires { sort ≤ 1 }
    ensures { result ≡ origin_in sort id }
{
    match sort {
        0 => Origin::Replica(id),
        _ => Origin::Client(id),
    }
}
