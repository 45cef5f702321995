// The core of plants that stays up at the end of a run, when every fault is over and the plants are
// to agree: at least a quorum that is not recovering, and others as the picks have it. It stands
// where the Rust has transition_to_liveness_mode.
#![tactic(auto)]

ghost use Rattle.std.specs.Prelude.{◌≡◌, true, not, ◌&&◌, ◌≤◌, leb, length, Ok, Err, MatchResult};
ghost use Rattle.plants.specs.State.{limit};
ghost use Rattle.basis.specs.Basis.{quorum};
ghost use Rattle.plants_lineup.specs.Core.{size_picks, picks_used, core_size, picks_in_range, ids_from, those, tally, core_of, recovering_fit, healthy_count};
ghost use Rattle.plants_liveness.specs.Choice.{lent_tested, in_core, up_after, is_set, newly_set, settled_by, padded, chosen};

use basis::MOST;
use calls::After;
use plants::Plants;
use plants::refusal::Refusal;

// A core that was chosen: its size, how many picks chose it, and its ids in rising order with zeros
// past its size.
#[derive(Clone, Copy)]
pub struct Core {
    pub size: usize,
    pub used: usize,
    pub ids: [u64; 15],
}

// Which plants are among some.
fn members(ids: &[u64]) -> [bool; MOST]
    requires { tally (leb 15) ids.now ≡ 0 }
    ensures { result ≡ in_core ids.now 0 15 }
{
    let mut flags = [false; MOST];
    for id in ids {
        flags[*id as usize] = true;
    }
    flags
}

// What decides a core of n plants: a recovering flag for each plant, the picks, and whether the full core is asked.
#[derive(Clone, Copy)]
struct Lent<'a> {
    n: usize,
    recovering: &'a [u64],
    picks: &'a [u64],
    full: bool,
}

impl<'a> Lent<'a> {
    // How many picks the size takes.
    fn size_picks(self) -> usize
        ensures { result ≡ size_picks self.entry.full }
    {
        usize::from(!self.full)
    }

    // The size that is asked or picked.
    fn size(self) -> usize
        requires { 1 ≤ length self.picks.now }
        ensures { result ≡ core_size self.entry.n self.entry.picks.now self.entry.full }
    {
        if self.full {
            self.n
        } else {
            self.picks[0] as usize
        }
    }

    // How many picks are used.
    fn used(self) -> usize
        requires { (3 ≤ self.n) × (self.n ≤ 15) }
        ensures { result ≡ picks_used self.entry.n self.entry.full }
    {
        self.size_picks() + (self.n - 1) + (self.n - basis::quorum(self.n) - 1)
    }

    // Whether each pick is within its range.
    #[tactic(auto, using(crate::proofs::Ranges::rest), unfolding(plants_lineup::specs::Core::picks_in_range))]
    fn in_range(self) -> bool
        requires { (3 ≤ self.n) × (self.n ≤ 15) × (picks_used self.n self.full ≤ length self.picks.now) }
        ensures { result ≡ picks_in_range self.entry.n self.entry.picks.now self.entry.full }
    {
        let size = self.size();
        let first = self.size_picks();
        let second = first + (self.n - 1);
        basis::quorum(self.n) <= size
            && size <= self.n
            && plants_lineup::picks_within(&self.picks[first..], self.n - 1)
            && plants_lineup::picks_within(
                &self.picks[second..],
                self.n - basis::quorum(self.n) - 1,
            )
    }

    // The tests before the core is chosen, of plants that are n.
    #[tactic(auto, using(plants::proofs::Testing::bounds), unfolding(crate::specs::Choice::lent_tested))]
    fn test(self, plants: Plants) -> Result<(), Refusal>
        requires { self.n ≡ plants.n }
        ensures { result ≡ lent_tested plants self.entry.recovering.now self.entry.picks.now self.entry.full }
    {
        plants.test()?;
        if self.recovering.len() != self.n || !plants_lineup::flags_fit(self.recovering) {
            return Err(Refusal::BadFlags);
        }
        if plants_lineup::healthy_count(self.recovering) < basis::quorum(self.n) {
            return Err(Refusal::TooFewHealthy);
        }
        if self.picks.len() < self.used() {
            return Err(Refusal::TooFewPicks);
        }
        if !self.in_range() {
            return Err(Refusal::PickOutOfRange);
        }
        Ok(())
    }

    // Which plants are in the core that the picks choose.
    fn in_core(self) -> [bool; MOST]
        requires le_n { (3 ≤ self.n) × (self.n ≤ 15) × (length self.recovering.now ≡ self.n) × (recovering_fit self.recovering.now ≡ true)
            × (quorum self.n ≤ healthy_count self.n self.recovering.now) }
        requires full_in_bounds { (picks_used self.n self.full ≤ length self.picks.now) × (picks_in_range self.n self.picks.now self.full ≡ true) }
        ensures { result ≡ up_after (core_of self.entry.n self.entry.recovering.now self.entry.picks.now self.entry.full) }
    {
        let size = self.size();
        let first = self.size_picks();
        let second = first + (self.n - 1);
        let line = plants_lineup::line_up(
            self.n,
            self.recovering,
            &self.picks[first..],
            &self.picks[second..],
        );
        members(&line[..size])
    }
}

// The plants whose flag is set, rising, and zeros.
fn rising(flags: &[bool; MOST]) -> [u64; MOST]
    ensures { result ≡ padded (those (is_set flags.now) (ids_from 0 15)) }
{
    let mut ids = [0u64; MOST];
    let mut count: usize = 0;
    for (id, flag) in flags.iter().enumerate() {
        if *flag {
            ids[count] = id as u64;
            count += 1;
        }
    }
    ids
}

// How many flags are set that were not.
#[tactic(auto, using(crate::proofs::RisenFlags::risen_next, crate::proofs::RisenFlags::risen_end, basis::proofs::Laws::bit_le))]
fn risen(before: &[bool; MOST], after: &[bool; MOST]) -> u64
    ensures count { result ≡ newly_set before.now after.now }
    ensures few { result ≤ 15 }
{
    let mut count = 0;
    for i in 0..MOST {
        count += u64::from(!before[i] & after[i]);
    }
    count
}

// The plants with these up from now on, and none partitioned.
fn settled(plants: Plants, up: [bool; MOST]) -> Plants
    requires { (plants.crashes ≤ limit) × (plants.restarts ≤ limit) }
    ensures { result ≡ settled_by plants up }
{
    Plants {
        up,
        partitioned: [false; MOST],
        crashes: plants.crashes + risen(&up, &plants.up),
        restarts: plants.restarts + risen(&plants.up, &up),
        ..plants
    }
}

// Chooses the core. `recovering` has a flag for each plant, 1 if it is recovering; the picks used
// stand at the front of `picks`. After a refusal the plants are as they came.
#[tactic(auto, using(crate::proofs::Lending::lent_passed, crate::proofs::Choosing::gathered, plants::proofs::Testing::counts), unfolding(crate::specs::Choice::chosen, crate::specs::Choice::choice_tested))]
pub fn choose_core(
    plants: Plants,
    recovering: &[u64],
    picks: &[u64],
    full: bool,
) -> After<Plants, Result<Core, Refusal>>
    ensures { result ≡ chosen plants recovering.now picks.now full }
{
    let lent = Lent {
        n: plants.n,
        recovering,
        picks,
        full,
    };
    if let Err(refusal) = lent.test(plants) {
        return After {
            state: plants,
            answer: Err(refusal),
        };
    }
    let up = lent.in_core();
    let state = settled(plants, up);
    if !state.counts_fit() {
        return After {
            state: plants,
            answer: Err(Refusal::CountFull),
        };
    }
    let core = Core {
        size: lent.size(),
        used: lent.used(),
        ids: rising(&up),
    };
    After {
        state,
        answer: Ok(core),
    }
}
