// A sample: a list of calls of the host's boundary with what is expected of each. Here are its numbers and steps, the rows of words that the
// calls are lent, and what is counted; the crates of the families run the calls.
//
// A list is a row of numbers, seven bits a byte with the lowest first, the top bit set on all bytes of a number but its last. Each row of
// words that calls write is kept twice: as the calls leave it, and as it is expected to be. One that they only read is kept once, and a step
// has to give both sides the same. All rows begin as zeros. A step is
//
//   0 side row at count word..  so many words from a place of a row on: expected, and with side 1 lent too
//   1 side row at count word    the same word so many times
//   2 row from to count         expected words, moved within their row
//   3 which answer number..     a call: its answer, and every word of each row that it may write, are compared
//
// compare/README.md lists the rows and the calls by their numbers.
#![tactic(auto)]

ghost use Rattle.std.specs.Prelude.{
  ◌≡◌,
  true,
  false,
  ℕ,
  ◌++◌,
  ◌+◌,
  ◌%◌,
  ◌^◌,
  ◌↔◌,
  ◌<◌,
  ◌≤◌,
  length,
  take,
  drop,
  replicate,
  IfSome,
  OnSome,
};
ghost use Rattle.samples_list.specs.Counts.{one_more};
ghost use Rattle.samples_list.specs.declared.Change.TheVariants.{Fill, Move};

// ---- The numbers

// What is left of a list.
#[derive(Clone, Copy)]
pub struct List<'a> {
    pub rest: &'a [u8],
}

impl<'a> List<'a> {
    // The next number. One that the list's end cuts off, or that is no word, is none.
    pub fn number(&mut self) -> Option<u64>
        ensures within { length self.new.rest.now ≤ length self.old.rest.now }
        ensures read { OnSome result (length self.new.rest.now < length self.old.rest.now) }
    {
        let mut value: u64 = 0;
        for place in 0..10u32 {
            let (byte, rest) = self.rest.split_first()?;
            self.rest = rest;
            let bits = u64::from(*byte);
            if place == 9 && 1 < bits {
                return None;
            }
            value |= (bits & 127) << (7 * place);
            if bits < 128 {
                return Some(value);
            }
        }
        None
    }

    // Whether words go to both sides.
    fn side(&mut self) -> Option<bool>
        ensures { length self.new.rest.now ≤ length self.old.rest.now }
    {
        match self.number()? {
            0 => Some(false),
            1 => Some(true),
            _ => None,
        }
    }
}

// ---- The steps

// The most numbers that a call can be told.
pub const NUMBERS: usize = 9;

// A call: which, the answer that is expected, and the numbers that it is told.
#[derive(Clone, Copy)]
pub struct Call {
    pub which: u64,
    pub answer: u64,
    pub numbers: [u64; NUMBERS],
}

// What becomes of a row's words.
#[derive(Clone, Copy)]
pub enum Change {
    Words,
    Fill(u64),
    Move { from: usize },
}

// Words of a row, so many from a place on, that change: as they are expected, and where they are lent too.
#[derive(Clone, Copy)]
pub struct Edit {
    pub row: u64,
    pub at: usize,
    pub count: usize,
    pub lent: bool,
    pub change: Change,
}

impl Edit {
    // Where the words end, if a row of so many has them all.
    pub fn end(self, size: usize) -> Option<usize>
        ensures { IfSome result (λ end. (end ≡ self.at + self.count) × (end ≤ size)) }
    {
        let end = self.at.checked_add(self.count)?;
        if size < end { None } else { Some(end) }
    }
}

#[derive(Clone, Copy)]
pub enum Step {
    Edit(Edit),
    Call(Call),
}

// How many numbers a call is told.
// Kept: a list has a call's number as it is in compare/README.md, and a family has a `match` on it: names would say it twice.
fn told_to(which: u64) -> usize
    ensures { result ≤ 9 }
{
    match which {
        0 | 4 | 12 | 17 | 22 => 2,
        5 => 0,
        6 | 8 | 13 => 1,
        10 | 15 | 16 | 18 => 3,
        14 | 19 => 4,
        1 | 2 | 7 => 5,
        11 | 20 => 6,
        3 => 8,
        _ => 9,
    }
}

impl<'a> List<'a> {
    // Words, which follow in the list.
    fn words(&mut self) -> Option<Edit>
        ensures { length self.new.rest.now ≤ length self.old.rest.now }
    {
        let lent = self.side()?;
        let row = self.number()?;
        let at = self.number()? as usize;
        let count = self.number()? as usize;
        Some(Edit {
            row,
            at,
            count,
            lent,
            change: Change::Words,
        })
    }

    // A word so many times.
    fn fill(&mut self) -> Option<Edit>
        ensures { length self.new.rest.now ≤ length self.old.rest.now }
    {
        let edit = self.words()?;
        let word = self.number()?;
        Some(Edit {
            change: Change::Fill(word),
            ..edit
        })
    }

    // Words moved within their row.
    fn moved(&mut self) -> Option<Edit>
        ensures { length self.new.rest.now ≤ length self.old.rest.now }
    {
        let row = self.number()?;
        let from = self.number()? as usize;
        let at = self.number()? as usize;
        let count = self.number()? as usize;
        Some(Edit {
            row,
            at,
            count,
            lent: false,
            change: Change::Move { from },
        })
    }

    // A call and its numbers.
    fn call(&mut self) -> Option<Call>
        ensures { length self.new.rest.now ≤ length self.old.rest.now }
    {
        let which = self.number()?;
        let answer = self.number()?;
        let mut numbers = [0u64; NUMBERS];
        self.put(&mut numbers[..told_to(which)])?;
        Some(Call {
            which,
            answer,
            numbers,
        })
    }

    // Numbers of the list, put into words.
    fn put(&mut self, words: &mut [u64]) -> Option<()>
        ensures { length self.new.rest.now ≤ length self.old.rest.now }
    {
        for word in words {
            *word = self.number()?;
        }
        Some(())
    }

    // The next step.
    fn step(&mut self) -> Option<Step>
        ensures { OnSome result (length self.new.rest.now < length self.old.rest.now) }
    {
        match self.number()? {
            0 => Some(Step::Edit(self.words()?)),
            1 => Some(Step::Edit(self.fill()?)),
            2 => Some(Step::Edit(self.moved()?)),
            3 => Some(Step::Call(self.call()?)),
            _ => None,
        }
    }
}

// ---- The rows

impl Edit {
    // Changes words of a row, if it has them.
    pub fn change(self, row: &mut [u64], list: &mut List<'_>) -> Option<()>
        ensures within { length list.new.rest.now ≤ length list.old.rest.now }
        ensures has { OnSome result (self.at + self.count ≤ length row.old) }
        ensures filled { (word : ℕ) → self.change ≡ Fill word → OnSome result (row.new
            ≡ take self.at row.old ++ (replicate self.count word ++ drop (self.at + self.count) row.old)) }
        ensures moved { (from : ℕ) → self.change ≡ Move from → OnSome result (row.new
            ≡ take self.at row.old
            ++ (take self.count (drop from row.old) ++ drop (self.at + self.count) row.old)) }
    {
        let end = self.end(row.len())?;
        match self.change {
            Change::Words => list.put(&mut row[self.at..end])?,
            Change::Fill(word) => row[self.at..end].fill(word),
            Change::Move { from } => {
                let last = from.checked_add(self.count)?;
                if row.len() < last {
                    return None;
                }
                row.copy_within(from..last, self.at);
            }
        }
        Some(())
    }

    // The same of a row that calls only read, which a step has to give to both sides.
    pub fn give(self, row: &mut [u64], list: &mut List<'_>) -> Option<()>
        ensures within { length list.new.rest.now ≤ length list.old.rest.now }
        ensures lent { OnSome result (self.lent ≡ true) }
        ensures has { OnSome result (self.at + self.count ≤ length row.old) }
        ensures filled { (word : ℕ) → self.change ≡ Fill word → OnSome result (row.new
            ≡ take self.at row.old ++ (replicate self.count word ++ drop (self.at + self.count) row.old)) }
    {
        if !self.lent {
            return None;
        }
        self.change(row, list)
    }
}

// A row that calls write: as they leave it, and as it is expected to be.
#[derive(Drop)]
pub struct Row<const N: usize> {
    pub lent: [u64; N],
    pub expected: [u64; N],
}

impl<const N: usize> Row<N> {
    pub fn new() -> Row<N>
        ensures lent { result.lent ≡ replicate N 0 }
        ensures expected { result.expected ≡ replicate N 0 }
    {
        Row {
            lent: [0; N],
            expected: [0; N],
        }
    }

    // Changes words of the row, if it has them.
    pub fn edit(&mut self, edit: Edit, list: &mut List<'_>) -> Option<()>
        ensures within { length list.new.rest.now ≤ length list.old.rest.now }
        ensures has { OnSome result (edit.at + edit.count ≤ N) }
        ensures filled { (word : ℕ) → edit.change ≡ Fill word → OnSome result (self.new.expected
            ≡ take edit.at self.old.expected
            ++ (replicate edit.count word ++ drop (edit.at + edit.count) self.old.expected)) }
        ensures moved { (from : ℕ) → edit.change ≡ Move from → OnSome result (self.new.expected
            ≡ take edit.at self.old.expected
            ++ (take edit.count (drop from self.old.expected) ++ drop (edit.at + edit.count) self.old.expected)) }
        ensures kept { edit.lent ≡ false → self.new.lent ≡ self.old.lent }
        ensures lent { edit.lent ≡ true → OnSome result (self.new.lent
            ≡ take edit.at self.old.lent
            ++ (take edit.count (drop edit.at self.new.expected) ++ drop (edit.at + edit.count) self.old.lent)) }
    {
        edit.change(&mut self.expected, list)?;
        if edit.lent {
            let end = edit.end(N)?;
            let (lent, expected) = (&mut self.lent[..], &self.expected[..]);
            lent[edit.at..end].copy_from_slice(&expected[edit.at..end]);
        }
        Some(())
    }

    // Whether the calls left it as it is expected.
    pub fn agrees(&self) -> bool
        ensures { result ≡ true ↔ self.now.lent ≡ self.now.expected }
    {
        self.lent == self.expected
    }
}

// ---- The counts

pub const REFUSALS: usize = 62;

pub const OUTCOMES: usize = 20;

// How many calls there are.
pub const CALLS: usize = 23;

// What a call came to: whether all was as expected, the number of its refusal, or 0, and the outcome of one that was not refused.
#[derive(Clone, Copy)]
pub struct Met {
    pub same: bool,
    pub refusal: u64,
    pub outcome: u64,
}

// Of a call: how often it was met, how often it differed, each refusal by its number, and what accepted ones came to.
#[derive(Clone, Copy)]
pub struct Tally {
    pub times: u64,
    pub differing: u64,
    pub refusals: [u64; REFUSALS],
    pub outcomes: [u64; OUTCOMES],
}

impl Tally {
    pub fn new() -> Tally
        ensures times { result.times ≡ 0 }
        ensures differing { result.differing ≡ 0 }
        ensures refusals { result.refusals ≡ replicate 62 0 }
        ensures outcomes { result.outcomes ≡ replicate 20 0 }
    {
        Tally {
            times: 0,
            differing: 0,
            refusals: [0; REFUSALS],
            outcomes: [0; OUTCOMES],
        }
    }

    // Counts a call. No list is long enough to wrap.
    pub fn count(&mut self, met: Met)
        ensures times { self.new.times ≡ (self.old.times + 1) % 2 ^ 64 }
        ensures same { met.same ≡ true → self.new.differing ≡ self.old.differing }
        ensures differing { met.same ≡ false → self.new.differing ≡ (self.old.differing + 1) % 2 ^ 64 }
        ensures accepted { met.refusal ≡ 0 → (self.new.refusals ≡ self.old.refusals) × (self.new.outcomes ≡ one_more self.old.outcomes met.outcome) }
        ensures refused { 0 < met.refusal → (self.new.outcomes ≡ self.old.outcomes) × (self.new.refusals ≡ one_more self.old.refusals met.refusal) }
    {
        self.times = self.times.wrapping_add(1);
        self.differing = self.differing.wrapping_add(u64::from(!met.same));
        if met.refusal == 0 {
            count_one(&mut self.outcomes, met.outcome);
        } else {
            count_one(&mut self.refusals, met.refusal);
        }
    }
}

// One more at a place, or at the last one for all behind it.
fn count_one(counts: &mut [u64], place: u64)
    requires { 0 < length counts.old }
    ensures { counts.new ≡ one_more counts.old place }
{
    let at = (place as usize).min(counts.len() - 1);
    counts[at] = counts[at].wrapping_add(1);
}

// ---- The replay

// The calls of a family, and the rows that they are lent.
pub trait Family {
    // Does what a step says to the words of a row, if the family has it.
    fn edit(&mut self, edit: Edit, list: &mut List<'_>) -> Option<()>
        ensures { length list.new.rest.now ≤ length list.old.rest.now };

    // Runs a call, if the family has it and its rows have what it is lent.
    fn call(&mut self, call: Call) -> Option<Met>
        ensures { OnSome result (call.which < 23) };
}

// Does one step, if it is the family's.
fn turn<F: Family>(family: &mut F, list: &mut List<'_>, tallies: &mut [Tally; CALLS]) -> Option<()>
    ensures { OnSome result (length list.new.rest.now < length list.old.rest.now) }
{
    match list.step()? {
        Step::Edit(edit) => family.edit(edit, list)?,
        Step::Call(call) => {
            let met = family.call(call)?;
            if let Some(tally) = tallies.get_mut(call.which as usize) {
                tally.count(met);
            }
        }
    }
    Some(())
}

// Replays a list as long as its steps are the family's. What is left of it.
pub fn replay<'a, F: Family>(
    family: &mut F,
    list: List<'a>,
    tallies: &mut [Tally; CALLS],
) -> List<'a>
    ensures { length result.rest.now ≤ length list.entry.rest.now }
{
    let mut reached = list;
    let mut ahead = list;
    while turn(family, &mut ahead, tallies).is_some() {
        reached = ahead;
    }
    reached
}
