// The verdicts on all records of a take in one call. The state is tested once, and a verdict reads the lent words in place; each record
// is answered and told as the single call would. A refusal changes no lent word.
#![tactic(auto)]

ghost use Rattle.std.specs.Prelude.{◌≡◌, [], ◌∷◌, map, ◌+◌, ◌*◌, ◌≤◌, length, take, drop, get_or, Err};
ghost use Rattle.basis.specs.Basis.{most};
ghost use Rattle.nights.specs.Record.{record_size, recs};
ghost use Rattle.plants.specs.Refusals.{answer_number};
ghost use Rattle.plants.specs.State.{none_set, counts_fit, plants_formed};
ghost use Rattle.plants.specs.Verdicts.{verdict_number};
ghost use Rattle.plants_layout.specs.Layout.{state_size, flags_in, plants_in};
ghost use Rattle.plants_words.specs.Calls.{verdict_answer, verdict_words};
ghost use Rattle.plants_verdicts.specs.Calls.{refused_number, answer_on, told_on, state_answer, first_answer, verdicts_answer, verdicts_words};
ghost use Rattle.plants_verdicts.specs.declared.Refused.TheVariants.{ByPlants};

use basis::MOST;
use network_queue::{LAST_SORT, RECORD_SIZE};
use plants::refusal::Refusal;
use plants::{LIMIT, Verdict};
use plants_layout::{CRASHES, PARTITIONED, REBOOTS, RESTARTS, UP, WORDS};

// Where a record has the sender's sort and id, and the receiver.
const SORT: usize = 3;

const ORIGIN: usize = 4;

const TO: usize = 5;

// Why the verdicts are refused.
#[derive(Clone, Copy)]
enum Refused {
    // A sender's sort is not known.
    UnknownSort,
    // The records are not one for each verdict.
    BadRoom,
    // The plants refuse it.
    ByPlants(Refusal),
}

impl Refused {
    // Its number in the rules.
    fn number(self) -> u64
        ensures { result ≡ refused_number (Err self) }
    {
        match self {
            Refused::UnknownSort => 24,
            Refused::BadRoom => 30,
            Refused::ByPlants(refusal) => refusal.number(),
        }
    }
}

impl From<Refusal> for Refused {
    ghost from_gives = { λ refusal refused. refused ≡ ByPlants refusal };

    fn from(refusal: Refusal) -> Refused {
        Refused::ByPlants(refusal)
    }
}

// Whether no flag is set past n plants, of the 15 from a word on.
fn none_past(words: &[u64; WORDS], at: usize, n: usize) -> bool
    requires { (at + most ≤ state_size) × (n ≤ most) }
    ensures { result ≡ none_set (drop n (flags_in (take most (drop at words.now)))) }
{
    words[at + n..at + MOST].iter().all(|word| *word != 1)
}

// Whether no count is over the limit.
#[tactic(auto, unfolding(plants::specs::State::counts_fit))]
fn counts_fit(words: &[u64; WORDS]) -> bool
    ensures { result ≡ counts_fit (plants_in words.now) }
{
    words[CRASHES] <= LIMIT && words[RESTARTS] <= LIMIT && words[REBOOTS] <= LIMIT
}

// Whether no flag is set past the last plant, and no count is over the limit.
#[tactic(auto, unfolding(plants::specs::State::plants_formed))]
fn is_formed(words: &[u64; WORDS]) -> bool
    requires { get_or words.now 0 0 ≤ most }
    ensures { result ≡ plants_formed (plants_in words.now) }
{
    let n = words[0] as usize;
    none_past(words, UP, n) && none_past(words, PARTITIONED, n) && counts_fit(words)
}

// Tests the state itself: 40 and 42.
fn test_state(words: &[u64; WORDS]) -> Result<(), Refusal>
    ensures { answer_number result ≡ state_answer words.now }
{
    plants_layout::shape(words)?;
    if !is_formed(words) {
        return Err(Refusal::IllFormed);
    }
    Ok(())
}

// What the single call answers, from what the state answers.
#[tactic(auto, using(crate::proofs::Judging::unsorted, crate::proofs::Judging::no_receiver, crate::proofs::Judging::no_sender, crate::proofs::Judging::from_plant, crate::proofs::Judging::from_client))]
fn answer_on(
    words: &[u64; WORDS],
    state: Result<(), Refusal>,
    sort: u64,
    id: u64,
    to: u64,
) -> Result<(), Refused>
    requires { answer_number state ≡ state_answer words.now }
    ensures { refused_number result ≡ verdict_answer words.now sort id to }
{
    if LAST_SORT < sort {
        return Err(Refused::UnknownSort);
    }
    state?;
    let n = words[0];
    if n <= to {
        return Err(Refused::ByPlants(Refusal::UnknownPlant));
    }
    if sort == 0 && n <= id {
        return Err(Refused::ByPlants(Refusal::UnknownPlant));
    }
    Ok(())
}

// What the single call tells, where it is not refused.
#[tactic(auto, using(crate::proofs::Judging::receiver_below, crate::proofs::Judging::sender_below, crate::proofs::Judging::told_down, crate::proofs::Judging::told_cut, crate::proofs::Judging::told_sender_cut, crate::proofs::Judging::told_from_plant, crate::proofs::Judging::told_from_client))]
fn told_on(words: &[u64; WORDS], sort: u64, id: u64, to: u64) -> Verdict
    requires { verdict_answer words.now sort id to ≡ 0 }
    ensures { verdict_number result ≡ get_or (verdict_words words.now sort id to (0 ∷ [])) 0 0 }
{
    let receiver = to as usize;
    if words[UP + receiver] != 1 {
        return Verdict::ReceiverDown;
    }
    if words[PARTITIONED + receiver] == 1 {
        return Verdict::CutOff;
    }
    if sort != 0 {
        return Verdict::Deliver;
    }
    let sender = id as usize;
    if words[PARTITIONED + sender] == 1 {
        return Verdict::CutOff;
    }
    Verdict::Deliver
}

// The first refusal among the records, or else what the state answers.
fn first_refusal(
    words: &[u64; WORDS],
    state: Result<(), Refusal>,
    records: &[u64],
    count: usize,
) -> Result<(), Refused>
    requires { (answer_number state ≡ state_answer words.now) × (length records.now ≡ record_size * count) }
    ensures { refused_number result ≡ first_answer (map (answer_on words.now) (recs records.now 0 count))
        (state_answer words.now) }
{
    for i in 0..count {
        let b = i * RECORD_SIZE;
        answer_on(
            words,
            state,
            records[b + SORT],
            records[b + ORIGIN],
            records[b + TO],
        )?;
    }
    state.map_err(Refused::ByPlants)
}

// The verdicts, where no record is refused.
fn put_verdicts(words: &[u64; WORDS], records: &[u64], told: &mut [u64])
    requires { (length records.now ≡ record_size * length told.old)
        × (first_answer (map (answer_on words.now) (recs records.now 0 (length told.old))) (state_answer words.now) ≡ 0) }
    ensures { told.new ≡ map (told_on words.now) (recs records.now 0 (length told.old)) }
{
    for (i, word) in told.iter_mut().enumerate() {
        let at = i * RECORD_SIZE;
        let verdict = told_on(
            words,
            records[at + SORT],
            records[at + ORIGIN],
            records[at + TO],
        );
        *word = verdict.number();
    }
}

// The verdicts on all records, or why they are refused.
#[tactic(auto, using(crate::proofs::Telling::refused_answer, crate::proofs::Telling::refused_above, crate::proofs::Telling::refused_told, crate::proofs::Telling::passed_answer, crate::proofs::Telling::passed_told))]
fn tell_all(words: &[u64; WORDS], records: &[u64], told: &mut [u64]) -> Result<(), Refused>
    ensures answer { refused_number result ≡ verdicts_answer words.now records.now told.old }
    ensures told { told.new ≡ verdicts_words words.now records.now told.old }
{
    let count = records.len() / RECORD_SIZE;
    if count != told.len() || count * RECORD_SIZE != records.len() {
        return Err(Refused::BadRoom);
    }
    let state = test_state(words);
    first_refusal(words, state, records, count)?;
    put_verdicts(words, records, told);
    Ok(())
}

// What becomes of the messages of a take, a record of eight words each: a verdict is told for each.
// Kept: a number, which the C interface answers (bellmantle_plants_verdicts).
pub fn verdicts(words: &[u64; WORDS], records: &[u64], told: &mut [u64]) -> u64
    ensures answer { result ≡ verdicts_answer words.now records.now told.old }
    ensures told { told.new ≡ verdicts_words words.now records.now told.old }
{
    match tell_all(words, records, told) {
        Ok(()) => 0,
        Err(refused) => refused.number(),
    }
}
