// The program `samples`: a list of calls on standard input, with what is expected of each; a tally of what they came to on standard output.
// The list has answers of the Rust, and of the rules where the Rust has none; some expectations are wrong on purpose, so that a replay
// that sees nothing is seen. compare/README.md says how it is made.
#![tactic(auto)]

use samples_list::{CALLS, List, Tally};
use samples_network::Networks;
use samples_plants::Plants;
use samples_properties::Properties;
use samples_script::Scripts;
use std::io::{self, Write};

// The most bytes of a list.
const ROOM: usize = 1048576;

// Room for a list, by a function: a caller knows its length from its type, and not that it is zeros.
fn room() -> [u8; ROOM] {
    [0; ROOM]
}

// ---- Keys

fn name_of(which: usize) -> &'static str {
    match which {
        0 => "parse_script",
        1 => "network_new",
        2 => "network_set_options",
        3 => "network_send",
        4 => "network_take_due",
        5 => "network_pending",
        6 => "network_in_flight",
        7 => "network_tick",
        8 => "journal_mark",
        9 => "journal_send",
        10 => "journal_take_due",
        11 => "journal_set_options",
        12 => "journal_rewind",
        13 => "plants_new",
        14 => "plants_apply",
        15 => "plants_verdict",
        16 => "plants_choose_core",
        17 => "properties_fresh",
        18 => "properties_reboot",
        19 => "properties_tick",
        20 => "properties_end",
        21 => "fate",
        _ => "plants_verdicts",
    }
}

// What an accepted call came to. None for those whose verdict, core's size or property is told by its number.
fn outcome_of(which: usize, outcome: usize) -> Option<&'static str> {
    match (which, outcome) {
        (15 | 16 | 19 | 20, _) => None,
        (0, 0) => Some("no event"),
        (0, _) => Some("events"),
        (3 | 9 | 21, 0) => Some("lost"),
        (3 | 9 | 21, 1) => Some("replayed"),
        (3 | 9 | 21, _) => Some("queued once"),
        (4 | 6 | 10, 0) => Some("none"),
        (4 | 6 | 10, _) => Some("some"),
        _ => Some("done"),
    }
}

// ---- The tally

fn say_outcome<W: Write>(to: &mut W, which: usize, outcome: usize, n: u64) -> io::Result<()> {
    let name = name_of(which);
    match outcome_of(which, outcome) {
        Some(came) => write!(to, "{name} {came}={n}\n"),
        None => write!(to, "{name} {outcome}={n}\n"),
    }
}

// Prints the counts of a call: all that are not 0, and of a call that was met how often it differed.
fn say_call<W: Write>(to: &mut W, which: usize, tally: &Tally) -> io::Result<()> {
    let name = name_of(which);
    if tally.times != 0 {
        write!(
            to,
            "{name}={}\n{name} differing={}\n",
            tally.times, tally.differing
        )?;
    }
    for (refusal, n) in tally.refusals.iter().enumerate() {
        if *n != 0 {
            write!(to, "{name} refusal {refusal}={n}\n")?;
        }
    }
    for (outcome, n) in tally.outcomes.iter().enumerate() {
        if *n != 0 {
            say_outcome(to, which, outcome, *n)?;
        }
    }
    Ok(())
}

// Replays a list, family by family, and prints the tally: last how many bytes of the list were not reached.
fn replay<W: Write>(to: &mut W, list: &[u8]) -> io::Result<()> {
    let mut tallies = [Tally::new(); CALLS];
    let mut left = List { rest: list };
    left = samples_list::replay(&mut Scripts::new(), left, &mut tallies);
    left = samples_list::replay(&mut Networks::new(), left, &mut tallies);
    left = samples_list::replay(&mut Plants::new(), left, &mut tallies);
    left = samples_list::replay(&mut Properties::new(), left, &mut tallies);
    for (which, tally) in tallies.iter().enumerate() {
        say_call(to, which, tally)?;
    }
    write!(to, "broken={}\n", left.rest.len())
}

fn main(rt: HostRuntime) -> io::Result<()> {
    let mut list = room();
    let length = match input::read_all(&mut rt.stdin(), &mut list) {
        Ok(length) => length,
        Err(error) => return eprintln!(rt; "samples: standard input: {error}"),
    };
    replay(&mut rt.stdout(), &list[..length])
}
