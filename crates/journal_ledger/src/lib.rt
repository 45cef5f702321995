// The journal's words: the sorts and lengths of records, whether the header is good, whether a record has room, a record put behind the
// others, and the record of a change of options.
#![tactic(auto)]

ghost use Rattle.std.specs.Prelude.{◌≡◌, true, ◌+◌, ◌≤◌, length};
ghost use Rattle.basis.specs.Basis.{laid};
ghost use Rattle.nights.specs.Net.{good_options};
ghost use Rattle.nights.specs.Journal.{used, logged, good_header, journal_tests};
ghost use Rattle.nights.specs.Tests.{verdict};
ghost use Rattle.network_options.specs.Answers.{settled_of};
ghost use Rattle.network_options.specs.Options.{plain_options};
ghost use Rattle.journal_ledger.specs.Records.{options_record};
ghost use Rattle.journal_ledger.specs.Sorts.{sort_number, sort_of};

use network_options::{NetworkOptions, Refusal};

// The sorts of a record, one for each call that can be undone.
#[derive(Clone, Copy, Debug, PartialEq, Eq)]
pub enum Sort {
    Send,
    Take,
    Options,
}

impl Sort {
    // A sort's word, which stands before the record's length at its end.
    pub fn number(self) -> u64
        ensures { result ≡ sort_number self }
    {
        match self {
            Sort::Send => 1,
            Sort::Take => 2,
            Sort::Options => 3,
        }
    }

    // The sort of a word, if it is one.
    pub fn of(word: u64) -> Option<Sort>
        ensures { result ≡ sort_of word }
    {
        match word {
            1 => Some(Sort::Send),
            2 => Some(Sort::Take),
            3 => Some(Sort::Options),
            _ => None,
        }
    }
}

// The words of a send's record, of an options record, and of a take's record beside the records taken.
pub const SEND_WORDS: usize = 6;

pub const OPTIONS_WORDS: usize = 7;

pub const TAKE_WORDS: usize = 2;

// The words before the first record: the calls held, and the words used.
pub const HEADER: usize = 2;

// Whether words 0 and 1 can head a journal of so many words: over whole numbers, twice the calls are at most the words used by them.
#[tactic(auto, using(crate::proofs::Words::halved), unfolding(nights::specs::Journal::good_header))]
pub fn header_good(journal: &[u64]) -> bool
    ensures { result ≡ good_header journal.now }
{
    let [held, used, ..] = *journal else {
        return false;
    };
    HEADER as u64 <= used && used <= journal.len() as u64 && held <= (used - HEADER as u64) / 2
}

// What a journal answers to a record of so many words.
#[tactic(auto, using(crate::proofs::Words::good_header_lem, crate::proofs::Words::bad_words, crate::proofs::Words::no_room, crate::proofs::Words::has_room))]
pub fn room_for(journal: &[u64], size: usize) -> Result<(), Refusal>
    ensures { settled_of result ≡ verdict (journal_tests journal.now size) }
{
    if !header_good(journal) {
        return Err(Refusal::BadJournal);
    }
    if journal.len() - (journal[1] as usize) < size {
        return Err(Refusal::NoJournalRoom);
    }
    Ok(())
}

// Words written over those that stand from a place on.
pub fn write_at(words: &mut [u64], at: usize, what: &[u64])
    requires { at + length what.now ≤ length words.old }
    ensures { words.new ≡ laid words.old at what.now }
{
    words[at..at + what.len()].copy_from_slice(what);
}

// A record written behind the last one, and the header that counts it.
#[tactic(auto, using(crate::proofs::Words::good_header_lem, crate::proofs::Words::held_stays, crate::proofs::Words::length_over, crate::proofs::Words::logged_by))]
pub fn append(journal: &mut [u64], what: &[u64])
    requires { (good_header journal.old ≡ true) × (used journal.old + length what.now ≤ length journal.old) }
    ensures { journal.new ≡ logged journal.old what.now }
{
    let used = journal[1] as usize;
    write_at(journal, used, what);
    journal[0] += 1;
    journal[1] = (used + what.len()) as u64;
}

// The record of a change of options, from the good options before it.
#[tactic(auto, using(crate::proofs::Words::good_loss, crate::proofs::Words::good_replay))]
pub fn options_record(old: NetworkOptions) -> [u64; OPTIONS_WORDS]
    requires { good_options (plain_options old) ≡ true }
    ensures { result ≡ options_record (plain_options old) }
{
    [
        chance::word_of(old.packet_loss_probability),
        chance::word_of(old.packet_replay_probability),
        old.one_way_delay_min,
        old.one_way_delay_mean,
        u64::from(old.fault_client_messages),
        Sort::Options.number(),
        OPTIONS_WORDS as u64,
    ]
}
