// The boundary for the host: our calls over numbers and lent words. A state and an answer are lent words; a call returns 0, or the number
// of its refusal, and on a refusal no lent word changes. bellmantle_c exports each of these calls for a program in another language to
// link, and include/bellmantle.h declares each function, each word of each layout and each number.
// Kept: in each of these calls the C interface fixes the parameters one by one, the lent rows with their lengths beside them, and a number
// for an answer.
#![tactic(auto)]

ghost use Rattle.std.specs.Prelude.{◌≡◌, [], ◌∷◌, length};
ghost use Rattle.script.specs.Scripts.{script_answer, script_words};
ghost use Rattle.nights.specs.Record.{record_words};
ghost use Rattle.nights.specs.Draws.{decided};
ghost use Rattle.nights.specs.Tests.{if_done};
ghost use Rattle.nights.specs.Journal.{rewind};
ghost use Rattle.network_form.specs.Forms.{plain_in};
ghost use Rattle.network_form.specs.Calls.{written};
ghost use Rattle.network_send.specs.Sends.{letter_of};
ghost use Rattle.network_take.specs.Takes.{due_records};
ghost use Rattle.network_layout.specs.Layout.{head_in, options_from, answer_code};
ghost use Rattle.network_fate.specs.Fates.{fate_number, fate_words};
ghost use Rattle.network_words.specs.Calls.{send_told, new_rows, option_rows, send_rows, take_rows, count_rows, list_rows};
ghost use Rattle.network_batch.specs.Ticks.{ticked};
ghost use Rattle.journal_calls.specs.Calls.{sends, takes, chooses, mark_answer, mark_words};
ghost use Rattle.journal_words.specs.Calls.{journal_answer, journal_head, journal_records, journal_words};
ghost use Rattle.plants_words.specs.Calls.{new_answer, new_words, apply_answer, apply_words, nonce_words, verdict_answer, verdict_words, core_answer, core_words, core_answered};
ghost use Rattle.plants_verdicts.specs.Calls.{verdicts_answer, verdicts_words};
ghost use Rattle.properties_tracker.specs.Calls.{fresh_answer, fresh_words, reboot_answer, reboot_words};
ghost use Rattle.properties_tick.specs.Calls.{tick_answer, tick_words};
ghost use Rattle.properties_end.specs.Calls.{end_answer};
ghost use Rattle.properties_told.specs.Told.{answer_number, answer_told};
ghost use Rattle.script_packed.specs.Packing.{answer_word};

use network_layout::OptionWords;
use network_send::Letter;

// ---- Fault scripts

// Reads a fault script into the lent words, three for each event: tick, fault and id. Answers how many
// events there are or, for a refusal, its number times 2^56, why times 2^48 and byte times 2^24 of a tick or an
// id that is no number (0 and 0 for any other), and its line.
pub fn bellmantle_parse_script(text: &[u8], events: &mut [u64]) -> u64
    ensures answer { result ≡ answer_word (script_answer text.now (length events.old)) }
    ensures words { events.new ≡ script_words text.now events.old }
{
    script_packed::parse_script(text, events)
}

// ---- Network

// A fresh network of these options; the flag is no for 0 and yes otherwise.
pub fn bellmantle_network_new(
    head: &mut [u64; network_layout::HEAD_WORDS],
    records: &mut [u64; network_queue::WORDS],
    loss: u64,
    replay: u64,
    min: u64,
    mean: u64,
    flag: u64,
) -> u64
    ensures answer { result ≡ (new_rows head.old records.old (options_from loss replay min mean flag)).number }
    ensures head { head.new ≡ (new_rows head.old records.old (options_from loss replay min mean flag)).head }
    ensures records { records.new ≡ (new_rows head.old records.old (options_from loss replay min mean flag)).records }
{
    network_words::new(
        head,
        records,
        OptionWords {
            loss,
            replay,
            min,
            mean,
            flag,
        },
    )
}

// Replaces the options.
pub fn bellmantle_network_set_options(
    head: &mut [u64; network_layout::HEAD_WORDS],
    records: &[u64; network_queue::WORDS],
    loss: u64,
    replay: u64,
    min: u64,
    mean: u64,
    flag: u64,
) -> u64
    ensures answer { result ≡ (option_rows head.old records.now (options_from loss replay min mean flag)).number }
    ensures head { head.new ≡ (option_rows head.old records.now (options_from loss replay min mean flag)).head }
{
    network_words::set_options(
        head,
        records,
        OptionWords {
            loss,
            replay,
            min,
            mean,
            flag,
        },
    )
}

// Accepts a message sent at tick `now`: whether it was lost, whether it was replayed, and the draws and extras used are told.
pub fn bellmantle_network_send(
    head: &mut [u64; network_layout::HEAD_WORDS],
    records: &mut [u64; network_queue::WORDS],
    now: u64,
    sort: u64,
    origin: u64,
    to: u64,
    kind: u64,
    handle: u64,
    draws: &[u64],
    extras: &[u64],
    told: &mut [u64; 4],
) -> u64
    ensures answer { result ≡ (send_rows head.old records.old (letter_of now sort origin to kind handle)
        draws.now extras.now told.old).number }
    ensures head { head.new ≡ (send_rows head.old records.old (letter_of now sort origin to kind handle)
        draws.now extras.now told.old).head }
    ensures records { records.new ≡ (send_rows head.old records.old (letter_of now sort origin to kind handle)
        draws.now extras.now told.old).records }
    ensures told { told.new ≡ (send_rows head.old records.old (letter_of now sort origin to kind handle)
        draws.now extras.now told.old).told }
{
    let letter = Letter {
        now,
        sort,
        origin,
        to,
        kind,
        handle,
    };
    network_words::send(head, records, letter, draws, extras, told)
}

// What becomes of a message of a kind that is sent at tick `now` under these options, with no network: whether it is lost, whether it is
// replayed, the draws and extras used, and the due ticks of the copy and of the original are told.
pub fn bellmantle_fate(
    loss: u64,
    replay: u64,
    min: u64,
    mean: u64,
    flag: u64,
    now: u64,
    kind: u64,
    draws: &[u64],
    extras: &[u64],
    told: &mut [u64; network_fate::TOLD_WORDS],
) -> u64
    ensures answer { result ≡ fate_number (options_from loss replay min mean flag) now kind draws.now extras.now }
    ensures told { told.new ≡ fate_words (options_from loss replay min mean flag) now kind draws.now
        extras.now told.old }
{
    let options = OptionWords {
        loss,
        replay,
        min,
        mean,
        flag,
    };
    network_fate::fate(options, now, kind, draws, extras, told)
}

// Takes every message due at tick `now` to the front of the lent output: how many they are is told.
pub fn bellmantle_network_take_due(
    head: &mut [u64; network_layout::HEAD_WORDS],
    records: &mut [u64; network_queue::WORDS],
    now: u64,
    out: &mut [u64],
    told: &mut [u64; 1],
) -> u64
    ensures answer { result ≡ (take_rows head.old records.old now out.old told.old).number }
    ensures head { head.new ≡ (take_rows head.old records.old now out.old told.old).head }
    ensures records { records.new ≡ (take_rows head.old records.old now out.old told.old).records }
    ensures out { out.new ≡ (take_rows head.old records.old now out.old told.old).out }
    ensures told { told.new ≡ (take_rows head.old records.old now out.old told.old).told }
{
    network_words::take_due(head, records, now, out, told)
}

// How many messages are in flight is told.
pub fn bellmantle_network_pending(
    head: &[u64; network_layout::HEAD_WORDS],
    records: &[u64; network_queue::WORDS],
    told: &mut [u64; 1],
) -> u64
    ensures answer { result ≡ (count_rows head.now records.now told.old).number }
    ensures told { told.new ≡ (count_rows head.now records.now told.old).told }
{
    network_words::pending(head, records, told)
}

// The messages in flight, in delivery order, at the front of the lent output: how many they are is told.
pub fn bellmantle_network_in_flight(
    head: &[u64; network_layout::HEAD_WORDS],
    records: &[u64; network_queue::WORDS],
    out: &mut [u64],
    told: &mut [u64; 1],
) -> u64
    ensures answer { result ≡ (list_rows head.now records.now out.old told.old).number }
    ensures out { out.new ≡ (list_rows head.now records.now out.old told.old).out }
    ensures told { told.new ≡ (list_rows head.now records.now out.old told.old).told }
{
    network_words::in_flight(head, records, out, told)
}

// ---- A whole tick

// The sends of a tick and then a take at `now`: the draws and the extras used and the records taken are told.
pub fn bellmantle_network_tick(
    head: &mut [u64; network_layout::HEAD_WORDS],
    records: &mut [u64; network_queue::WORDS],
    sends: &[u64],
    draws: &[u64],
    extras: &[u64],
    now: u64,
    out: &mut [u64],
    told: &mut [u64; 3],
) -> u64
    ensures answer { result ≡ (ticked head.old records.old sends.now
        draws.now extras.now now out.old told.old).number }
    ensures head { head.new ≡ (ticked head.old records.old sends.now
        draws.now extras.now now out.old told.old).head }
    ensures records { records.new ≡ (ticked head.old records.old sends.now
        draws.now extras.now now out.old told.old).records }
    ensures out { out.new ≡ (ticked head.old records.old sends.now
        draws.now extras.now now out.old told.old).out }
    ensures told { told.new ≡ (ticked head.old records.old sends.now
        draws.now extras.now now out.old told.old).told }
{
    network_batch::tick(head, records, sends, draws, extras, now, out, told)
}

// ---- Journal

// Forgets the calls held.
pub fn bellmantle_journal_mark(journal: &mut [u64]) -> u64
    ensures answer { result ≡ answer_code (mark_answer journal.old) }
    ensures journal { journal.new ≡ mark_words journal.old }
{
    journal_words::mark(journal)
}

// A journaled send.
pub fn bellmantle_journal_send(
    head: &mut [u64; network_layout::HEAD_WORDS],
    records: &mut [u64; network_queue::WORDS],
    now: u64,
    sort: u64,
    origin: u64,
    to: u64,
    kind: u64,
    handle: u64,
    draws: &[u64],
    extras: &[u64],
    journal: &mut [u64],
    told: &mut [u64; 4],
) -> u64
    ensures answer { result
        ≡ answer_code (journal_answer (sends now sort origin to kind handle draws.now extras.now) head.old records.old journal.old) }
    ensures head { head.new
        ≡ journal_head (sends now sort origin to kind handle draws.now extras.now) head.old records.old journal.old }
    ensures records { records.new
        ≡ journal_records (sends now sort origin to kind handle draws.now extras.now) head.old records.old journal.old }
    ensures journal { journal.new
        ≡ journal_words (sends now sort origin to kind handle draws.now extras.now) head.old records.old journal.old }
    ensures told { told.new
        ≡ if_done (journal_answer (sends now sort origin to kind handle draws.now extras.now) head.old records.old journal.old)
        (send_told (decided (plain_in (head_in head.old) records.old).options now kind draws.now extras.now)) told.old }
{
    let letter = Letter {
        now,
        sort,
        origin,
        to,
        kind,
        handle,
    };
    journal_words::send(head, records, letter, draws, extras, journal, told)
}

// A journaled take.
pub fn bellmantle_journal_take_due(
    head: &mut [u64; network_layout::HEAD_WORDS],
    records: &mut [u64; network_queue::WORDS],
    now: u64,
    out: &mut [u64],
    journal: &mut [u64],
    told: &mut [u64; 1],
) -> u64
    ensures answer { result ≡ answer_code (journal_answer (takes now (length out.old)) head.old records.old journal.old) }
    ensures head { head.new ≡ journal_head (takes now (length out.old)) head.old records.old journal.old }
    ensures records { records.new ≡ journal_records (takes now (length out.old)) head.old records.old journal.old }
    ensures out { out.new
        ≡ written (journal_answer (takes now (length out.old)) head.old records.old journal.old)
        (record_words (due_records now (head_in head.old) records.old)) out.old }
    ensures journal { journal.new ≡ journal_words (takes now (length out.old)) head.old records.old journal.old }
    ensures told { told.new
        ≡ if_done (journal_answer (takes now (length out.old)) head.old records.old journal.old)
        (length (due_records now (head_in head.old) records.old) ∷ []) told.old }
{
    journal_words::take_due(head, records, now, out, journal, told)
}

// A journaled change of the options.
pub fn bellmantle_journal_set_options(
    head: &mut [u64; network_layout::HEAD_WORDS],
    records: &[u64; network_queue::WORDS],
    loss: u64,
    replay: u64,
    min: u64,
    mean: u64,
    flag: u64,
    journal: &mut [u64],
) -> u64
    ensures answer { result ≡ answer_code (journal_answer (chooses (options_from loss replay min mean flag)) head.old records.now journal.old) }
    ensures head { head.new ≡ journal_head (chooses (options_from loss replay min mean flag)) head.old records.now journal.old }
    ensures journal { journal.new ≡ journal_words (chooses (options_from loss replay min mean flag)) head.old records.now journal.old }
{
    let options = OptionWords {
        loss,
        replay,
        min,
        mean,
        flag,
    };
    journal_words::set_options(head, records, options, journal)
}

// Goes back over the last k calls held.
pub fn bellmantle_journal_rewind(
    head: &mut [u64; network_layout::HEAD_WORDS],
    records: &mut [u64; network_queue::WORDS],
    k: u64,
    journal: &mut [u64],
) -> u64
    ensures answer { result ≡ answer_code (journal_answer (rewind k) head.old records.old journal.old) }
    ensures head { head.new ≡ journal_head (rewind k) head.old records.old journal.old }
    ensures records { records.new ≡ journal_records (rewind k) head.old records.old journal.old }
    ensures journal { journal.new ≡ journal_words (rewind k) head.old records.old journal.old }
{
    journal_words::rewind(head, records, k, journal)
}

// ---- Plants and core

// Fresh plants.
pub fn bellmantle_plants_new(n: u64, words: &mut [u64; plants_layout::WORDS]) -> u64
    ensures answer { result ≡ new_answer n }
    ensures words { words.new ≡ new_words n words.old }
{
    plants_words::new(n, words)
}

// Injects a fault at a tick; a reboot's nonce is told.
pub fn bellmantle_plants_apply(
    words: &mut [u64; plants_layout::WORDS],
    tick: u64,
    fault: u64,
    id: u64,
    draws: &[u64],
    nonce: &mut [u64; 1],
) -> u64
    ensures answer { result ≡ apply_answer words.old tick fault id draws.now }
    ensures words { words.new ≡ apply_words words.old tick fault id draws.now }
    ensures nonce { nonce.new ≡ nonce_words words.old tick fault id draws.now nonce.old }
{
    plants_words::apply(words, tick, fault, id, draws, nonce)
}

// What becomes of a message that is due at plant `to`: its verdict is told.
pub fn bellmantle_plants_verdict(
    words: &[u64; plants_layout::WORDS],
    sort: u64,
    id: u64,
    to: u64,
    told: &mut [u64; 1],
) -> u64
    ensures answer { result ≡ verdict_answer words.now sort id to }
    ensures told { told.new ≡ verdict_words words.now sort id to told.old }
{
    plants_words::verdict(words, sort, id, to, told)
}

// What becomes of the messages of a take, eight words each: a verdict is told for each.
pub fn bellmantle_plants_verdicts(
    words: &[u64; plants_layout::WORDS],
    records: &[u64],
    told: &mut [u64],
) -> u64
    ensures answer { result ≡ verdicts_answer words.now records.now told.old }
    ensures told { told.new ≡ verdicts_words words.now records.now told.old }
{
    plants_verdicts::verdicts(words, records, told)
}

// Chooses the core of plants that stays up; `full` is no for 0 and yes otherwise.
pub fn bellmantle_plants_choose_core(
    words: &mut [u64; plants_layout::WORDS],
    recovering: &[u64],
    picks: &[u64],
    full: u64,
    told: &mut [u64; plants_words::CORE_WORDS],
) -> u64
    ensures answer { result ≡ core_answer words.old recovering.now picks.now full }
    ensures words { words.new ≡ core_words words.old recovering.now picks.now full }
    ensures told { told.new ≡ core_answered words.old recovering.now picks.now full told.old }
{
    plants_words::choose_core(words, recovering, picks, full, told)
}

// ---- Properties

// A fresh tracker.
pub fn bellmantle_properties_fresh(n: u64, tracker: &mut [u64]) -> u64
    ensures answer { result ≡ answer_number (fresh_answer n (length tracker.old)) }
    ensures tracker { tracker.new ≡ fresh_words n tracker.old }
{
    properties_words::fresh(n, tracker)
}

// A plant came back without its memory.
pub fn bellmantle_properties_reboot(n: u64, id: u64, tracker: &mut [u64]) -> u64
    ensures answer { result ≡ answer_number (reboot_answer n id tracker.old) }
    ensures tracker { tracker.new ≡ reboot_words n id tracker.old }
{
    properties_words::reboot(n, id, tracker)
}

// After a tick.
pub fn bellmantle_properties_tick(
    n: u64,
    plants: &[u64],
    logs: &[u64],
    tracker: &mut [u64],
    told: &mut [u64; properties_told::ANSWER_WORDS],
) -> u64
    ensures answer { result ≡ answer_number (tick_answer n plants.now logs.now tracker.old) }
    ensures tracker { tracker.new ≡ tick_words n plants.now logs.now tracker.old }
    ensures told { told.new ≡ answer_told (tick_answer n plants.now logs.now tracker.old) told.old }
{
    properties_words::tick(n, plants, logs, tracker, told)
}

// At the end of a run.
pub fn bellmantle_properties_end(
    n: u64,
    plants: &[u64],
    logs: &[u64],
    values: &[i64],
    core: &[u64],
    tracker: &[u64],
    told: &mut [u64; properties_told::ANSWER_WORDS],
) -> u64
    ensures answer { result ≡ answer_number (end_answer n plants.now logs.now values.now core.now tracker.now) }
    ensures told { told.new ≡ answer_told (end_answer n plants.now logs.now values.now core.now tracker.now) told.old }
{
    properties_words::end(n, plants, logs, values, core, tracker, told)
}
