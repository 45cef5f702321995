// The plants in the order in which a core takes them: dealt out by a shuffle, the healthy before the recovering, and all but a quorum
// shuffled again. Beside it the tests of the flags and picks that decide it.
#![tactic(auto)]

ghost use Rattle.std.specs.Prelude.{◌≡◌, true, ◌++◌, ◌+◌, ◌-◌, ◌≤◌, ◌<◌, leb, length, take, drop, replicate};
ghost use Rattle.plants_lineup.specs.Shuffle.{shuffled, picks_within};
ghost use Rattle.basis.specs.Basis.{quorum};
ghost use Rattle.plants_lineup.specs.Core.{ids_from, those, tally, has_flag, is_healthy, is_recovering, recovering_fit, healthy_count, candidates, staying, filler, line_up};

// Whether no flag is over 1.
pub fn flags_fit(flags: &[u64]) -> bool
    ensures { result ≡ recovering_fit flags.now }
{
    flags.iter().all(|flag| *flag <= 1)
}

// How many plants are healthy, of as many as there are flags.
pub fn healthy_count(flags: &[u64]) -> usize
    ensures { result ≡ healthy_count (length flags.now) flags.now }
{
    flags.iter().filter(|flag| **flag == 0).count()
}

// Whether for i from a place down to 1 the next pick is 0..i.
pub fn picks_within(picks: &[u64], last: usize) -> bool
    requires { last ≤ length picks.now }
    ensures { result ≡ picks_within last picks.now }
{
    (0..last).all(|at| picks[at] as usize <= last - at)
}

// Numbers the plants from 0.
fn number(ids: &mut [u64])
    ensures { ids.new ≡ ids_from 0 (length ids.old) }
{
    for (i, id) in ids.iter_mut().enumerate() {
        *id = i as u64;
    }
}

// Shuffles a list: for i from its last place down to 1 the next pick, swapping.
fn shuffle(list: &mut [u64], picks: &[u64])
    requires { (1 ≤ length list.old) × (length list.old ≤ length picks.now + 1) × (picks_within (length list.old - 1) picks.now ≡ true) }
    ensures { list.new ≡ shuffled picks.now list.old }
{
    let last = list.len() - 1;
    for at in 0..last {
        let i = last - at;
        let j = picks[at] as usize;
        let x = list[i];
        let y = list[j];
        list[i] = y;
        list[j] = x;
    }
}

// Writes those of the ids that have a flag behind the first `at` of a line, and answers how many
// there are then.
fn append(ids: &[u64], flags: &[u64], flag: u64, line: &mut [u64], at: usize) -> usize
    requires ids_value { tally (leb (length flags.now)) ids.now ≡ 0 }
    requires ids_in_bounds { at + tally (has_flag flags.now flag) ids.now ≤ length line.old }
    ensures count { result ≡ at + tally (has_flag flags.now flag) ids.now }
    ensures line { line.new ≡ take at line.old
        ++ (those (has_flag flags.now flag) ids.now
        ++ drop (at + tally (has_flag flags.now flag) ids.now) line.old) }
{
    let mut count = at;
    for id in ids {
        if flags[*id as usize] == flag {
            line[count] = *id;
            count += 1;
        }
    }
    count
}

// Deals the plants out in the order of a shuffle.
fn deal(ids: &mut [u64], picks: &[u64])
    requires { (1 ≤ length ids.old) × (length ids.old ≤ length picks.now + 1) × (picks_within (length ids.old - 1) picks.now ≡ true) }
    ensures { ids.new ≡ candidates (length ids.old) picks.now }
{
    number(ids);
    shuffle(ids, picks);
}

// Writes the healthy of the ids, then the recovering, each in their order.
fn split(ids: &[u64], flags: &[u64], line: &mut [u64])
    requires { (tally (leb (length flags.now)) ids.now ≡ 0) × (recovering_fit flags.now ≡ true) × (length line.old ≡ length ids.now) }
    ensures { line.new ≡ those (is_healthy flags.now) ids.now
        ++ those (is_recovering flags.now) ids.now }
{
    let healthy = append(ids, flags, 0, line, 0);
    append(ids, flags, 1, line, healthy);
}

// Writes the ids in the order in which the core takes them: a quorum of the healthy stays in front,
// and the others are shuffled.
fn arrange(ids: &[u64], flags: &[u64], picks: &[u64], line: &mut [u64])
    requires ids_value { (tally (leb (length flags.now)) ids.now ≡ 0) × (recovering_fit flags.now ≡ true) × (length line.old ≡ length ids.now) }
    requires ids_bound { (quorum (length ids.now) ≤ tally (is_healthy flags.now) ids.now) × (quorum (length ids.now) < length ids.now) }
    requires ids_in_bounds { (length ids.now - quorum (length ids.now) ≤ length picks.now + 1)
        × (picks_within (length ids.now - quorum (length ids.now) - 1) picks.now ≡ true) }
    ensures { line.new ≡ staying (length ids.now) flags.now ids.now
        ++ shuffled picks.now (filler (length ids.now) flags.now ids.now) }
{
    split(ids, flags, line);
    let start = basis::quorum(ids.len());
    shuffle(&mut line[start..], picks);
}

// The n plants in the order in which the core takes them, and zeros.
pub fn line_up(n: usize, flags: &[u64], first: &[u64], second: &[u64]) -> [u64; 15]
    requires le_n { (3 ≤ n) × (n ≤ 15) × (length flags.now ≡ n) × (recovering_fit flags.now ≡ true) × (quorum n ≤ healthy_count n flags.now) }
    requires n_in_bounds { (n - 1 ≤ length first.now) × (picks_within (n - 1) first.now ≡ true) }
    requires n_in_bounds_2 { (n - quorum n - 1 ≤ length second.now) × (picks_within (n - quorum n - 1) second.now ≡ true) }
    ensures { result ≡ line_up n flags.now first.now second.now ++ replicate (15 - n) 0 }
{
    let mut ids = [0u64; 15];
    deal(&mut ids[..n], first);
    let mut line = [0u64; 15];
    arrange(&ids[..n], flags, second, &mut line[..n]);
    line
}
