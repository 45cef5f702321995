// The calls on the plants and the core in a sample: the rows that they are lent, the calls, and what is compared after each.
#![tactic(auto)]

ghost use Rattle.std.specs.Prelude.{◌≡◌, ◌<◌, ◌≤◌, length, replicate, OnSome};

use samples_list::{Call, Edit, Family, List, Met, NUMBERS, Row};

// How many words the rows have that the boundary does not fix.
const DRAWN: usize = 64;

const TAKES: usize = 1040;

const FLAGS: usize = 20;

const PICKED: usize = 64;

const JUDGED: usize = 20;

// The rows 4, 7, 9, 12 to 15 and 22.
#[derive(Drop)]
pub struct Plants {
    draws: [u64; DRAWN],
    taken: [u64; TAKES],
    told: Row<1>,
    plants: Row<{ plants_layout::WORDS }>,
    recovering: [u64; FLAGS],
    picks: [u64; PICKED],
    core: Row<{ plants_words::CORE_WORDS }>,
    judged: Row<JUDGED>,
}

impl Plants {
    pub fn new() -> Plants
        ensures lent { (result.draws ≡ replicate 64 0) × (result.taken ≡ replicate 1040 0)
            × (result.recovering ≡ replicate 20 0) × (result.picks ≡ replicate 64 0) }
        ensures judged { (result.judged.lent ≡ replicate 20 0) × (result.judged.expected ≡ replicate 20 0) }
    {
        Plants {
            draws: [0; DRAWN],
            taken: [0; TAKES],
            told: Row::new(),
            plants: Row::new(),
            recovering: [0; FLAGS],
            picks: [0; PICKED],
            core: Row::new(),
            judged: Row::new(),
        }
    }

    fn apply(&mut self, n: &[u64; NUMBERS]) -> Option<u64> {
        let draws = self.draws.get(..n[3] as usize)?;
        let (plants, told) = (&mut self.plants.lent, &mut self.told.lent);
        Some(bellmantle::bellmantle_plants_apply(plants, n[0], n[1], n[2], draws, told))
    }

    fn choose_core(&mut self, n: &[u64; NUMBERS]) -> Option<u64> {
        let recovering = self.recovering.get(..n[0] as usize)?;
        let picks = self.picks.get(..n[1] as usize)?;
        let (plants, core) = (&mut self.plants.lent, &mut self.core.lent);
        Some(bellmantle::bellmantle_plants_choose_core(plants, recovering, picks, n[2], core))
    }

    fn verdicts(&mut self, n: &[u64; NUMBERS]) -> Option<u64> {
        let taken = self.taken.get(..n[0] as usize)?;
        let judged = self.judged.lent.get_mut(..n[1] as usize)?;
        Some(bellmantle::bellmantle_plants_verdicts(&self.plants.lent, taken, judged))
    }

    // Runs a call of these.
    fn run(&mut self, which: u64, n: &[u64; NUMBERS]) -> Option<u64>
        ensures { OnSome result (which < 23) }
    {
        let (plants, told) = (&mut self.plants.lent, &mut self.told.lent);
        match which {
            13 => Some(bellmantle::bellmantle_plants_new(n[0], plants)),
            14 => self.apply(n),
            15 => Some(bellmantle::bellmantle_plants_verdict(plants, n[0], n[1], n[2], told)),
            16 => self.choose_core(n),
            22 => self.verdicts(n),
            _ => None,
        }
    }

    // Whether the rows that calls write are as they are expected.
    fn agrees(&self) -> bool {
        self.told.agrees() && self.plants.agrees() && self.core.agrees() && self.judged.agrees()
    }
}

impl Family for Plants {
    fn edit(&mut self, edit: Edit, list: &mut List<'_>) -> Option<()> {
        match edit.row {
            4 => edit.give(&mut self.draws, list),
            7 => edit.give(&mut self.taken, list),
            9 => self.told.edit(edit, list),
            12 => self.plants.edit(edit, list),
            13 => edit.give(&mut self.recovering, list),
            14 => edit.give(&mut self.picks, list),
            15 => self.core.edit(edit, list),
            22 => self.judged.edit(edit, list),
            _ => None,
        }
    }

    // An accepted call comes to a verdict, to the size of a core, or it is done.
    fn call(&mut self, call: Call) -> Option<Met> {
        let answer = self.run(call.which, &call.numbers)?;
        let outcome = match call.which {
            15 => self.told.lent[0],
            16 => self.core.lent[0],
            _ => 0,
        };
        Some(Met {
            same: answer == call.answer && self.agrees(),
            refusal: answer,
            outcome,
        })
    }
}
