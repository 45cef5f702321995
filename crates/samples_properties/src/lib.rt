// The calls on the cluster properties in a sample: the rows that they are lent, the calls, and what is compared after each.
#![tactic(auto)]

ghost use Rattle.std.specs.Prelude.{◌≡◌, ◌<◌, ◌≤◌, length, replicate, OnSome};

use samples_list::{Call, Edit, Family, List, Met, NUMBERS, Row};

// How many words each row has.
const STANDING: usize = 64;

const LOGGED: usize = 7700;

const VALUED: usize = 20;

const NAMED: usize = 20;

const TRACKED: usize = 2460;

// The rows 11 and 16 to 20. The values are lent as signed numbers of the words' bits.
#[derive(Drop)]
pub struct Properties {
    told: Row<4>,
    snapshot: [u64; STANDING],
    logs: [u64; LOGGED],
    values: [u64; VALUED],
    ids: [u64; NAMED],
    tracker: Row<TRACKED>,
}

impl Properties {
    pub fn new() -> Properties
        ensures told { (result.told.lent ≡ replicate 4 0) × (result.told.expected ≡ replicate 4 0) }
        ensures lent { (result.snapshot ≡ replicate 64 0) × (result.logs ≡ replicate 7700 0)
            × (result.values ≡ replicate 20 0) × (result.ids ≡ replicate 20 0) }
        ensures tracker { (result.tracker.lent ≡ replicate 2460 0) × (result.tracker.expected ≡ replicate 2460 0) }
    {
        Properties {
            told: Row::new(),
            snapshot: [0; STANDING],
            logs: [0; LOGGED],
            values: [0; VALUED],
            ids: [0; NAMED],
            tracker: Row::new(),
        }
    }

    fn fresh(&mut self, n: &[u64; NUMBERS]) -> Option<u64> {
        let tracker = self.tracker.lent.get_mut(..n[1] as usize)?;
        Some(bellmantle::bellmantle_properties_fresh(n[0], tracker))
    }

    fn reboot(&mut self, n: &[u64; NUMBERS]) -> Option<u64> {
        let tracker = self.tracker.lent.get_mut(..n[2] as usize)?;
        Some(bellmantle::bellmantle_properties_reboot(n[0], n[1], tracker))
    }

    fn tick(&mut self, n: &[u64; NUMBERS]) -> Option<u64> {
        let snapshot = self.snapshot.get(..n[1] as usize)?;
        let logs = self.logs.get(..n[2] as usize)?;
        let tracker = self.tracker.lent.get_mut(..n[3] as usize)?;
        let told = &mut self.told.lent;
        Some(bellmantle::bellmantle_properties_tick(n[0], snapshot, logs, tracker, told))
    }

    fn end(&mut self, n: &[u64; NUMBERS]) -> Option<u64> {
        let snapshot = self.snapshot.get(..n[1] as usize)?;
        let logs = self.logs.get(..n[2] as usize)?;
        let values = self.values.map(|word| word.cast_signed());
        let valued = values.get(..n[3] as usize)?;
        let ids = self.ids.get(..n[4] as usize)?;
        let tracker = self.tracker.lent.get(..n[5] as usize)?;
        let told = &mut self.told.lent;
        Some(bellmantle::bellmantle_properties_end(
            n[0], snapshot, logs, valued, ids, tracker, told,
        ))
    }
}

impl Family for Properties {
    fn edit(&mut self, edit: Edit, list: &mut List<'_>) -> Option<()> {
        match edit.row {
            11 => self.told.edit(edit, list),
            16 => edit.give(&mut self.snapshot, list),
            17 => edit.give(&mut self.logs, list),
            18 => edit.give(&mut self.values, list),
            19 => edit.give(&mut self.ids, list),
            20 => self.tracker.edit(edit, list),
            _ => None,
        }
    }

    // An accepted call comes to the property told, or it is done.
    fn call(&mut self, call: Call) -> Option<Met> {
        let n = &call.numbers;
        let answer = match call.which {
            17 => self.fresh(n)?,
            18 => self.reboot(n)?,
            19 => self.tick(n)?,
            20 => self.end(n)?,
            _ => return None,
        };
        Some(Met {
            same: answer == call.answer && self.told.agrees() && self.tracker.agrees(),
            refusal: answer,
            outcome: if call.which < 19 {
                0
            } else {
                self.told.lent[0]
            },
        })
    }
}
