// The fate of a message under a network's options: what its lent draws and extras decide, and what that adds to the counters.
#![tactic(auto)]

ghost use Rattle.std.specs.Prelude.{◌≡◌, true, ◌+◌, ◌≤◌, T, length};
ghost use Rattle.basis.specs.Basis.{bit};
ghost use Rattle.nights.specs.Net.{good_options, dues, lost_by, replayed_by, delayed_by};
ghost use Rattle.nights.specs.Draws.{extras_for, extra_at, alone, both, after_replay, decided, is_faulted};
ghost use Rattle.chance.specs.Probability.{good_probability};
ghost use Rattle.chance.specs.Draw.{gen_bool_in_send};
ghost use Rattle.network_options.specs.Options.{plain_options};
ghost use Rattle.network_fates.specs.Answers.{decided_by, decision_of, tick_of, tick_from};

use network_options::{NetworkOptions, Refusal};

// The kind of a message that a client sends.
const REQUEST: u64 = 0;

// What a message's draws and extras decide, with the words used.
#[derive(Clone, Copy)]
pub enum Decision {
    Lost {
        draws: usize,
    },
    // The original alone: when it is due, and whether it is delayed beyond the minimum.
    Once {
        due: u64,
        late: bool,
        draws: usize,
        extras: usize,
    },
    // A copy, which is numbered first, and the original.
    Twice {
        copy: u64,
        original: u64,
        copy_late: bool,
        original_late: bool,
        draws: usize,
        extras: usize,
    },
}

// ---- The fate of a message

// A due tick, over whole numbers: none past the last tick.
fn due_tick(now: u64, min: u64, extra: u64) -> Option<u64>
    ensures { tick_of result ≡ tick_from (now + min + extra) }
{
    now.checked_add(min)?.checked_add(extra)
}

// How many extras so many copies use: none where the delay is fixed.
fn extras_for(options: NetworkOptions, copies: usize) -> usize
    ensures { result ≡ extras_for (plain_options options) copies }
{
    if options.one_way_delay_mean == options.one_way_delay_min {
        return 0;
    }
    copies
}

// The extra of the copy at a place.
fn extra_at(options: NetworkOptions, extras: &[u64], i: usize) -> u64
    requires { extras_for (plain_options options) (i + 1) ≤ length extras.now }
    ensures { result ≡ extra_at (plain_options options) extras.now i }
{
    if options.one_way_delay_mean == options.one_way_delay_min {
        return 0;
    }
    extras[i]
}

// The original alone, after so many draws.
fn once(
    options: NetworkOptions,
    now: u64,
    extras: &[u64],
    draws: usize,
) -> Result<Decision, Refusal>
    ensures { decision_of result ≡ alone (plain_options options) now extras.now draws }
{
    let used = extras_for(options, 1);
    if extras.len() < used {
        return Err(Refusal::ShortExtras);
    }
    let extra = extra_at(options, extras, 0);
    let Some(due) = due_tick(now, options.one_way_delay_min, extra) else {
        return Err(Refusal::LateTick);
    };
    Ok(Decision::Once {
        due,
        late: extra != 0,
        draws,
        extras: used,
    })
}

// The copy before the original, after so many draws.
fn twice(
    options: NetworkOptions,
    now: u64,
    extras: &[u64],
    draws: usize,
) -> Result<Decision, Refusal>
    ensures { decision_of result ≡ both (plain_options options) now extras.now draws }
{
    let used = extras_for(options, 2);
    if extras.len() < used {
        return Err(Refusal::ShortExtras);
    }
    let copy_extra = extra_at(options, extras, 0);
    let extra = extra_at(options, extras, 1);
    let Some(copy) = due_tick(now, options.one_way_delay_min, copy_extra) else {
        return Err(Refusal::LateTick);
    };
    let Some(original) = due_tick(now, options.one_way_delay_min, extra) else {
        return Err(Refusal::LateTick);
    };
    Ok(Decision::Twice {
        copy,
        original,
        copy_late: copy_extra != 0,
        original_late: extra != 0,
        draws,
        extras: used,
    })
}

// After the loss draw answered no: the replay draw, at the place of the next word.
fn kept(
    options: NetworkOptions,
    now: u64,
    draws: &[u64],
    place: usize,
    extras: &[u64],
) -> Result<Decision, Refusal>
    requires { T (good_probability options.packet_replay_probability) }
    ensures { decision_of result ≡ after_replay (plain_options options) now extras.now (gen_bool_in_send options.packet_replay_probability draws.now place) }
{
    let Some(draw) = chance::gen_bool_in_send(options.packet_replay_probability, draws, place)
    else {
        return Err(Refusal::ShortDraws);
    };
    if draw.yes {
        return twice(options, now, extras, draw.next);
    }
    once(options, now, extras, draw.next)
}

// Whether faults apply to a message of a kind.
fn faulted(options: NetworkOptions, kind: u64) -> bool
    ensures { result ≡ is_faulted (plain_options options) kind }
{
    kind != REQUEST || options.fault_client_messages
}

// The fate of a message, from its lent draws and extras.
pub fn decide(
    options: NetworkOptions,
    now: u64,
    kind: u64,
    draws: &[u64],
    extras: &[u64],
) -> Result<Decision, Refusal>
    requires { good_options (plain_options options) ≡ true }
    ensures { decision_of result ≡ decided (plain_options options) now kind draws.now extras.now }
{
    if !faulted(options, kind) {
        return Ok(Decision::Once {
            due: now,
            late: false,
            draws: 0,
            extras: 0,
        });
    }
    let Some(draw) = chance::gen_bool_in_send(options.packet_loss_probability, draws, 0) else {
        return Err(Refusal::ShortDraws);
    };
    if draw.yes {
        return Ok(Decision::Lost { draws: draw.next });
    }
    kept(options, now, draws, draw.next, extras)
}

// ---- What a decision is, and what it adds

impl Decision {
    // Whether the message is lost, and whether it is replayed.
    #[tactic(auto, unfolding(nights::specs::Net::lost_by))]
    pub fn lost(self) -> bool
        ensures { bit result ≡ lost_by (decided_by self).fate }
    {
        matches!(self, Decision::Lost { .. })
    }

    #[tactic(auto, unfolding(nights::specs::Net::replayed_by))]
    pub fn replayed(self) -> bool
        ensures { bit result ≡ replayed_by (decided_by self).fate }
    {
        matches!(self, Decision::Twice { .. })
    }

    // How many copies are queued, and how many of them are delayed beyond the minimum.
    #[tactic(auto, unfolding(nights::specs::Net::dues))]
    pub fn copies(self) -> usize
        ensures { result ≡ length (dues (decided_by self).fate) }
    {
        match self {
            Decision::Lost { .. } => 0,
            Decision::Once { .. } => 1,
            Decision::Twice { .. } => 2,
        }
    }

    #[tactic(auto, unfolding(nights::specs::Net::delayed_by))]
    pub fn delayed(self) -> u64
        ensures { result ≡ delayed_by (decided_by self).fate }
    {
        match self {
            Decision::Lost { .. } => 0,
            Decision::Once { late, .. } => u64::from(late),
            Decision::Twice {
                copy_late,
                original_late,
                ..
            } => u64::from(copy_late) + u64::from(original_late),
        }
    }

    // How many draws and how many extras were used, from the front of their lists.
    pub fn draws(self) -> usize
        ensures { result ≡ (decided_by self).draws }
    {
        match self {
            Decision::Lost { draws } => draws,
            Decision::Once { draws, .. } => draws,
            Decision::Twice { draws, .. } => draws,
        }
    }

    pub fn extras(self) -> usize
        ensures { result ≡ (decided_by self).extras }
    {
        match self {
            Decision::Lost { .. } => 0,
            Decision::Once { extras, .. } => extras,
            Decision::Twice { extras, .. } => extras,
        }
    }
}
