// The plants and the choice of a core over lent words: a state's words are read, the call is made, and what follows is written back. A
// call answers 0, or the number of its refusal; then no lent word is changed, those lent for the answer included.
//
// A state is 49 words: n; a flag for each of 15 plants that it is up; a flag for each that it is partitioned; for each the tick until
// which it is stable; crashes, restarts, reboots.
#![tactic(auto)]

ghost use Rattle.std.specs.Prelude.{◌≡◌, [], ◌∷◌, not, eqb};
ghost use Rattle.plants.specs.Refusals.{answer_number};
ghost use Rattle.plants.specs.Faults.{applied};
ghost use Rattle.plants.specs.Verdicts.{verdict_given};
ghost use Rattle.plants_layout.specs.Layout.{plants_in, state_words, shaped};
ghost use Rattle.plants_liveness.specs.declared.Core.{Core};
ghost use Rattle.plants_words.specs.Calls.{or_else, on_zero, outcome_number, drawn, judged_number, judged_word, new_answer, new_words, apply_answer, apply_words, nonce_words, verdict_answer, verdict_words, core_answer, core_words, core_answered, core_told};

use basis::MOST;
use plants::refusal::Refusal;
use plants::{Origin, Plants};
use plants_layout::WORDS;
use plants_liveness::Core;
use script::fault::Fault;

// A core's answer: its size, the picks used, and its ids with zeros behind them.
const IDS: usize = 2;

pub const CORE_WORDS: usize = IDS + MOST;

// The number of an unknown fault, and that of an unknown sort of sender.
// Kept: numbers, which the C interface answers (bellmantle_plants_apply, bellmantle_plants_verdict), as the calls here do.
const UNKNOWN_FAULT: u64 = 5;

const UNKNOWN_SORT: u64 = 24;

// The number of an answer: 0 for what was done, or that of its refusal.
fn number_of<T: Copy>(answer: Result<T, Refusal>) -> u64
    ensures { result ≡ answer_number answer }
{
    match answer {
        Ok(_) => 0,
        Err(refusal) => refusal.number(),
    }
}

// Fresh plants.
pub fn new(n: u64, words: &mut [u64; WORDS]) -> u64
    ensures answer { result ≡ new_answer n }
    ensures words { words.new ≡ new_words n words.old }
{
    let next = Plants::new(n as usize);
    if next.answer.is_ok() {
        plants_layout::store(next.state, words);
    }
    number_of(next.answer)
}

// Injects a fault, once its number is known.
fn apply_known(
    words: &mut [u64; WORDS],
    tick: u64,
    fault: Fault,
    draws: &[u64],
    nonce: &mut [u64; 1],
) -> Result<(), Refusal>
    ensures answer { let next = applied (plants_in words.old) tick fault draws.now in
        answer_number result ≡ or_else (shaped words.old) (outcome_number next.answer) }
    ensures words { let next = applied (plants_in words.old) tick fault draws.now in
        words.new ≡ on_zero (answer_number result) (state_words next.state) words.old }
    ensures nonce { let next = applied (plants_in words.old) tick fault draws.now in
        nonce.new ≡ on_zero (answer_number result) (drawn next.answer nonce.old) nonce.old }
{
    plants_layout::shape(words)?;
    let next = plants_layout::load(words).apply(tick, fault, draws);
    let drawn = next.answer?;
    plants_layout::store(next.state, words);
    if let Some(word) = drawn {
        *nonce = [word];
    }
    Ok(())
}

// Injects a fault at a tick; a reboot's nonce is told.
pub fn apply(
    words: &mut [u64; WORDS],
    tick: u64,
    fault: u64,
    id: u64,
    draws: &[u64],
    nonce: &mut [u64; 1],
) -> u64
    ensures answer { result ≡ apply_answer words.old tick fault id draws.now }
    ensures words { words.new ≡ apply_words words.old tick fault id draws.now }
    ensures nonce { nonce.new ≡ nonce_words words.old tick fault id draws.now nonce.old }
{
    if 5 < fault {
        return UNKNOWN_FAULT;
    }
    let known = plants_layout::fault_of(fault, id);
    number_of(apply_known(words, tick, known, draws, nonce))
}

// What becomes of a message from a sender that is known.
fn verdict_known(
    words: &[u64; WORDS],
    from: Origin,
    to: u64,
    told: &mut [u64; 1],
) -> Result<(), Refusal>
    ensures answer { answer_number result ≡ or_else (shaped words.now) (judged_number (verdict_given (plants_in words.now) from to)) }
    ensures told { told.new ≡ on_zero (answer_number result) (judged_word (verdict_given (plants_in words.now) from to) told.old) told.old }
{
    plants_layout::shape(words)?;
    let verdict = plants_layout::load(words).verdict(from, to)?;
    *told = [verdict.number()];
    Ok(())
}

// What becomes of a message that is due at plant `to`: its verdict is told.
pub fn verdict(words: &[u64; WORDS], sort: u64, id: u64, to: u64, told: &mut [u64; 1]) -> u64
    ensures answer { result ≡ verdict_answer words.now sort id to }
    ensures told { told.new ≡ verdict_words words.now sort id to told.old }
{
    if 1 < sort {
        return UNKNOWN_SORT;
    }
    let from = plants_layout::origin_of(sort, id);
    number_of(verdict_known(words, from, to, told))
}

// The answer of a core: its size, the picks used, and its 15 words.
fn put_core(told: &mut [u64; CORE_WORDS], core: &Core)
    ensures { told.new ≡ core_told core.now.size core.now.used core.now.ids }
{
    told[0] = core.size as u64;
    told[1] = core.used as u64;
    told[IDS..].copy_from_slice(&core.ids);
}

// Chooses the core, or says why there is none.
fn choose(
    words: &mut [u64; WORDS],
    recovering: &[u64],
    picks: &[u64],
    full: u64,
    told: &mut [u64; CORE_WORDS],
) -> Result<(), Refusal>
    ensures answer { answer_number result ≡ core_answer words.old recovering.now picks.now full }
    ensures words { words.new ≡ core_words words.old recovering.now picks.now full }
    ensures told { told.new ≡ core_answered words.old recovering.now picks.now full told.old }
{
    plants_layout::shape(words)?;
    let state = plants_layout::load(words);
    let chosen = plants_liveness::choose_core(state, recovering, picks, full != 0);
    let core = chosen.answer?;
    plants_layout::store(chosen.state, words);
    put_core(told, &core);
    Ok(())
}

// Chooses the core of plants that stays up; `full` is no for 0 and yes otherwise.
pub fn choose_core(
    words: &mut [u64; WORDS],
    recovering: &[u64],
    picks: &[u64],
    full: u64,
    told: &mut [u64; CORE_WORDS],
) -> u64
    ensures answer { result ≡ core_answer words.old recovering.now picks.now full }
    ensures words { words.new ≡ core_words words.old recovering.now picks.now full }
    ensures told { told.new ≡ core_answered words.old recovering.now picks.now full told.old }
{
    number_of(choose(words, recovering, picks, full, told))
}
