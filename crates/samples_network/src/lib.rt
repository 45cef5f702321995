// The calls of the network and of the journal in a sample, and a message's fate alone: the rows that they are lent, the calls, and what is
// compared after each.
#![tactic(auto)]

ghost use Rattle.std.specs.Prelude.{◌≡◌, ◌<◌, ◌≤◌, length, replicate, OnSome};

use samples_list::{Call, Edit, Family, List, Met, NUMBERS, Row};

// How many words the rows have that the boundary does not fix.
const DRAWN: usize = 64;

const SENT: usize = 600;

const TAKEN: usize = 1040;

const JOURNALED: usize = 2064;

// Below a tick's refusal its answer has the place of what it refused.
const PLACE_BITS: u32 = 32;

// The rows 2 to 11 and 21.
#[derive(Drop)]
pub struct Networks {
    head: Row<{ network_layout::HEAD_WORDS }>,
    records: Row<{ network_queue::WORDS }>,
    draws: [u64; DRAWN],
    extras: [u64; DRAWN],
    sends: [u64; SENT],
    out: Row<TAKEN>,
    journal: Row<JOURNALED>,
    told_one: Row<1>,
    told_three: Row<3>,
    told_four: Row<4>,
    told_six: Row<6>,
}

impl Networks {
    pub fn new() -> Networks
        ensures lent { (result.draws ≡ replicate 64 0) × (result.extras ≡ replicate 64 0) × (result.sends ≡ replicate 600 0) }
        ensures out { (result.out.lent ≡ replicate 1040 0) × (result.out.expected ≡ replicate 1040 0) }
    {
        Networks {
            head: Row::new(),
            records: Row::new(),
            draws: [0; DRAWN],
            extras: [0; DRAWN],
            sends: [0; SENT],
            out: Row::new(),
            journal: Row::new(),
            told_one: Row::new(),
            told_three: Row::new(),
            told_four: Row::new(),
            told_six: Row::new(),
        }
    }

    // ---- The calls of the network

    fn send(&mut self, n: &[u64; NUMBERS]) -> Option<u64> {
        let draws = self.draws.get(..n[6] as usize)?;
        let extras = self.extras.get(..n[7] as usize)?;
        let (head, records) = (&mut self.head.lent, &mut self.records.lent);
        let told = &mut self.told_four.lent;
        Some(bellmantle::bellmantle_network_send(
            head, records, n[0], n[1], n[2], n[3], n[4], n[5], draws, extras, told,
        ))
    }

    fn take_due(&mut self, n: &[u64; NUMBERS]) -> Option<u64> {
        let out = self.out.lent.get_mut(..n[1] as usize)?;
        let (head, records) = (&mut self.head.lent, &mut self.records.lent);
        let told = &mut self.told_one.lent;
        Some(bellmantle::bellmantle_network_take_due(head, records, n[0], out, told))
    }

    fn in_flight(&mut self, n: &[u64; NUMBERS]) -> Option<u64> {
        let out = self.out.lent.get_mut(..n[0] as usize)?;
        let (head, records) = (&self.head.lent, &self.records.lent);
        let told = &mut self.told_one.lent;
        Some(bellmantle::bellmantle_network_in_flight(head, records, out, told))
    }

    fn tick(&mut self, n: &[u64; NUMBERS]) -> Option<u64> {
        let sends = self.sends.get(..n[0] as usize)?;
        let draws = self.draws.get(..n[1] as usize)?;
        let extras = self.extras.get(..n[2] as usize)?;
        let out = self.out.lent.get_mut(..n[4] as usize)?;
        let (head, records) = (&mut self.head.lent, &mut self.records.lent);
        let told = &mut self.told_three.lent;
        Some(bellmantle::bellmantle_network_tick(
            head, records, sends, draws, extras, n[3], out, told,
        ))
    }

    fn network_call(&mut self, which: u64, n: &[u64; NUMBERS]) -> Option<u64> {
        let (head, records) = (&mut self.head.lent, &mut self.records.lent);
        match which {
            1 => Some(bellmantle::bellmantle_network_new(
                head, records, n[0], n[1], n[2], n[3], n[4],
            )),
            2 => Some(bellmantle::bellmantle_network_set_options(
                head, records, n[0], n[1], n[2], n[3], n[4],
            )),
            3 => self.send(n),
            4 => self.take_due(n),
            5 => Some(bellmantle::bellmantle_network_pending(
                head,
                records,
                &mut self.told_one.lent,
            )),
            6 => self.in_flight(n),
            _ => self.tick(n),
        }
    }

    // ---- A message's fate alone

    fn fate(&mut self, n: &[u64; NUMBERS]) -> Option<u64> {
        let draws = self.draws.get(..n[7] as usize)?;
        let extras = self.extras.get(..n[8] as usize)?;
        let told = &mut self.told_six.lent;
        Some(bellmantle::bellmantle_fate(
            n[0], n[1], n[2], n[3], n[4], n[5], n[6], draws, extras, told,
        ))
    }

    // ---- The calls of the journal

    fn mark(&mut self, n: &[u64; NUMBERS]) -> Option<u64> {
        let journal = self.journal.lent.get_mut(..n[0] as usize)?;
        Some(bellmantle::bellmantle_journal_mark(journal))
    }

    fn journaled_send(&mut self, n: &[u64; NUMBERS]) -> Option<u64> {
        let draws = self.draws.get(..n[6] as usize)?;
        let extras = self.extras.get(..n[7] as usize)?;
        let journal = self.journal.lent.get_mut(..n[8] as usize)?;
        let (head, records) = (&mut self.head.lent, &mut self.records.lent);
        let told = &mut self.told_four.lent;
        Some(bellmantle::bellmantle_journal_send(
            head, records, n[0], n[1], n[2], n[3], n[4], n[5], draws, extras, journal, told,
        ))
    }

    fn journaled_take(&mut self, n: &[u64; NUMBERS]) -> Option<u64> {
        let out = self.out.lent.get_mut(..n[1] as usize)?;
        let journal = self.journal.lent.get_mut(..n[2] as usize)?;
        let (head, records) = (&mut self.head.lent, &mut self.records.lent);
        let told = &mut self.told_one.lent;
        Some(bellmantle::bellmantle_journal_take_due(head, records, n[0], out, journal, told))
    }

    fn journaled_options(&mut self, n: &[u64; NUMBERS]) -> Option<u64> {
        let journal = self.journal.lent.get_mut(..n[5] as usize)?;
        let (head, records) = (&mut self.head.lent, &self.records.lent);
        Some(bellmantle::bellmantle_journal_set_options(
            head, records, n[0], n[1], n[2], n[3], n[4], journal,
        ))
    }

    fn rewind(&mut self, n: &[u64; NUMBERS]) -> Option<u64> {
        let journal = self.journal.lent.get_mut(..n[1] as usize)?;
        let (head, records) = (&mut self.head.lent, &mut self.records.lent);
        Some(bellmantle::bellmantle_journal_rewind(head, records, n[0], journal))
    }

    // ---- What a call is held against, and what it came to

    // Runs a call of these.
    fn run(&mut self, which: u64, n: &[u64; NUMBERS]) -> Option<u64>
        ensures { OnSome result (which < 23) }
    {
        match which {
            1..=7 => self.network_call(which, n),
            8 => self.mark(n),
            9 => self.journaled_send(n),
            10 => self.journaled_take(n),
            11 => self.journaled_options(n),
            12 => self.rewind(n),
            21 => self.fate(n),
            _ => None,
        }
    }

    // Whether the rows that calls write are as they are expected.
    fn agrees(&self) -> bool {
        let network = self.head.agrees() && self.records.agrees();
        let written = self.out.agrees() && self.journal.agrees();
        let told = self.told_one.agrees()
            && self.told_three.agrees()
            && self.told_four.agrees()
            && self.told_six.agrees();
        network && written && told
    }
}

// Of a send or a fate, by its first two words: lost, replayed, or queued once.
fn sent(told: &[u64]) -> u64
    requires { 2 ≤ length told.now }
{
    match (told[0], told[1]) {
        (1, _) => 0,
        (_, 1) => 1,
        _ => 2,
    }
}

impl Family for Networks {
    fn edit(&mut self, edit: Edit, list: &mut List<'_>) -> Option<()> {
        match edit.row {
            2 => self.head.edit(edit, list),
            3 => self.records.edit(edit, list),
            4 => edit.give(&mut self.draws, list),
            5 => edit.give(&mut self.extras, list),
            6 => edit.give(&mut self.sends, list),
            7 => self.out.edit(edit, list),
            8 => self.journal.edit(edit, list),
            9 => self.told_one.edit(edit, list),
            10 => self.told_three.edit(edit, list),
            11 => self.told_four.edit(edit, list),
            21 => self.told_six.edit(edit, list),
            _ => None,
        }
    }

    fn call(&mut self, call: Call) -> Option<Met> {
        let answer = self.run(call.which, &call.numbers)?;
        Some(Met {
            same: answer == call.answer && self.agrees(),
            refusal: if call.which == 7 {
                answer >> PLACE_BITS
            } else {
                answer
            },
            outcome: match call.which {
                3 | 9 => sent(&self.told_four.lent),
                4 | 6 | 10 => u64::from(self.told_one.lent[0] != 0),
                21 => sent(&self.told_six.lent),
                _ => 0,
            },
        })
    }
}
