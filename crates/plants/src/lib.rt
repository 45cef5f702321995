// Which plants are up and which are cut off, what a fault does to them, and whether a message that
// is due reaches its plant. Plants are the Rust's replicas.
#![tactic(auto)]

pub mod refusal;

ghost use Rattle.std.specs.Prelude.{◌≡◌, true, cond, ◌≤◌, ◌<◌, ltb, set, Ok, Err, MatchResult};
ghost use Rattle.plants.specs.State.{limit, fresh_plants, new_plants, tested, counts_fit, plants_formed, none_set};
ghost use Rattle.plants.specs.Faults.{after_fault, applied, answered, knows, parted};
ghost use Rattle.plants.specs.Verdicts.{verdict_number, verdict_by, verdict_given};

use basis::MOST;
use calls::After;
use refusal::Refusal;
use script::fault::Fault;

// The most that a count may be, 2^62: so a count that rises by a few never wraps.
pub const LIMIT: u64 = 1 << 62;

// The state of n plants, which are numbered from 0. There is room for 15.
// Kept: rows of fields, since a row of structs is no plainer: heal-all, a core and the lent words each set one field of every plant.
#[derive(Clone, Copy)]
pub struct Plants {
    pub n: usize,
    // Whether each plant runs.
    pub up: [bool; 15],
    // Whether each plant is cut off from every other plant and client.
    pub partitioned: [bool; 15],
    // The tick before which each plant's health must not change again.
    pub stable_until: [u64; 15],
    // How often a plant went down, came up, and came up without memory.
    pub crashes: u64,
    pub restarts: u64,
    pub reboots: u64,
}

// Who sends a message.
#[derive(Clone, Copy)]
pub enum Origin {
    Replica(u64),
    Client(u64),
}

// What becomes of a message that is due.
#[derive(Clone, Copy)]
pub enum Verdict {
    Deliver,
    ReceiverDown,
    CutOff,
}

impl Verdict {
    // Its number in the rules.
    pub fn number(self) -> u64
        ensures { result ≡ verdict_number self }
    {
        match self {
            Verdict::Deliver => 0,
            Verdict::ReceiverDown => 1,
            Verdict::CutOff => 2,
        }
    }
}

// Whether no flag is set.
fn none_set(flags: &[bool]) -> bool
    ensures { result ≡ none_set flags.now }
{
    flags.iter().all(|flag| !*flag)
}

// The verdict on a message by the state of its two ends.
fn verdict_by(up: bool, receiver_cut: bool, sender_cut: bool) -> Verdict
    ensures { result ≡ verdict_by up receiver_cut sender_cut }
{
    if !up {
        Verdict::ReceiverDown
    } else if receiver_cut || sender_cut {
        Verdict::CutOff
    } else {
        Verdict::Deliver
    }
}

// What a fault that is not refused answers: a reboot the first draw as its nonce.
fn nonce_of(fault: Fault, draws: &[u64]) -> Result<Option<u64>, Refusal>
    ensures { result ≡ answered fault draws.now }
{
    let Fault::Reboot(_) = fault else {
        return Ok(None);
    };
    let nonce = draws.first().ok_or(Refusal::NoNonce)?;
    Ok(Some(*nonce))
}

// The place of a plant, if it is one of n.
fn place(n: usize, id: u64) -> Result<usize, Refusal>
    ensures { result ≡ cond (ltb id n) (Ok id) (Err Refusal.UnknownPlant) }
{
    if id < n as u64 {
        Ok(id as usize)
    } else {
        Err(Refusal::UnknownPlant)
    }
}

impl Plants {
    // Fresh plants: all n up, none partitioned, nothing counted.
    #[tactic(auto, using(basis::proofs::Laws::between), unfolding(crate::specs::State::new_plants))]
    pub fn new(n: usize) -> After<Plants, Result<Option<u64>, Refusal>>
        ensures { result ≡ new_plants n }
    {
        if !basis::plant_count(n) {
            return After {
                state: Plants::fresh(0),
                answer: Err(Refusal::PlantCount),
            };
        }
        After {
            state: Plants::fresh(n),
            answer: Ok(None),
        }
    }

    // The first n plants up, and all else zero.
    fn fresh(n: usize) -> Plants
        requires { n ≤ 15 }
        ensures { result ≡ fresh_plants n }
    {
        let mut up = [false; MOST];
        up[..n].fill(true);
        Plants {
            n,
            up,
            partitioned: [false; MOST],
            stable_until: [0; MOST],
            crashes: 0,
            restarts: 0,
            reboots: 0,
        }
    }

    // Tests the state itself, as every call does first.
    #[tactic(auto, using(basis::proofs::Laws::between), unfolding(crate::specs::State::tested))]
    pub fn test(self) -> Result<(), Refusal>
        ensures { result ≡ tested self }
    {
        if !basis::plant_count(self.n) {
            return Err(Refusal::PlantCount);
        }
        if !self.is_formed() {
            return Err(Refusal::IllFormed);
        }
        Ok(())
    }

    // Whether no flag is set past the last plant, and no count is over the limit.
    #[tactic(auto, unfolding(crate::specs::State::plants_formed))]
    fn is_formed(self) -> bool
        requires { self.n ≤ 15 }
        ensures { result ≡ plants_formed self }
    {
        none_set(&self.up[self.n..]) && none_set(&self.partitioned[self.n..]) && self.counts_fit()
    }

    // Whether no count is over the limit.
    #[tactic(auto, unfolding(crate::specs::State::counts_fit))]
    pub fn counts_fit(self) -> bool
        ensures { result ≡ counts_fit self }
    {
        self.crashes <= LIMIT && self.restarts <= LIMIT && self.reboots <= LIMIT
    }

    // Whether a fault names one of the plants, or needs none.
    #[tactic(auto, using(crate::proofs::Counting::needs_none, crate::proofs::Counting::knows_id))]
    fn knows(self, fault: Fault) -> bool
        ensures { result ≡ knows self fault }
    {
        !fault.needs_id() || fault.id() < self.n as u64
    }

    // A crash counts only if the plant is up.
    #[tactic(auto, unfolding(crate::specs::Faults::after_fault))]
    fn crashed(mut self, id: usize, tick: u64) -> Plants
        requires { (id < 15) × (self.crashes ≤ limit) }
        ensures { result ≡ after_fault self tick (Fault.Crash id) }
    {
        self.crashes += u64::from(self.up[id]);
        self.up[id] = false;
        self.stable_until[id] = tick;
        self
    }

    // A restart counts only if the plant is down.
    #[tactic(auto, unfolding(crate::specs::Faults::after_fault))]
    fn restarted(mut self, id: usize, tick: u64) -> Plants
        requires { (id < 15) × (self.restarts ≤ limit) }
        ensures { result ≡ after_fault self tick (Fault.Restart id) }
    {
        self.restarts += u64::from(!self.up[id]);
        self.up[id] = true;
        self.stable_until[id] = tick;
        self
    }

    // A reboot always counts, as a reboot and as a restart.
    #[tactic(auto, unfolding(crate::specs::Faults::after_fault))]
    fn rebooted(mut self, id: usize, tick: u64) -> Plants
        requires { (id < 15) × (self.restarts ≤ limit) × (self.reboots ≤ limit) }
        ensures { result ≡ after_fault self tick (Fault.Reboot id) }
    {
        self.restarts += 1;
        self.reboots += 1;
        self.up[id] = true;
        self.stable_until[id] = tick;
        self
    }

    // One plant cut off, or reconnected.
    fn parted(mut self, id: usize, flag: bool) -> Plants
        requires { id < 15 }
        ensures { result ≡ parted self (set self.partitioned id flag) }
    {
        self.partitioned[id] = flag;
        self
    }

    // Every plant reconnected.
    #[tactic(auto, unfolding(crate::specs::Faults::after_fault))]
    fn healed(self) -> Plants
        ensures { result ≡ after_fault self 0 Fault.HealAll }
    {
        Plants {
            partitioned: [false; MOST],
            ..self
        }
    }

    // The plants after a fault.
    #[tactic(auto, unfolding(crate::specs::Faults::after_fault))]
    fn after(self, tick: u64, fault: Fault) -> Plants
        requires { (tested self ≡ Ok tt) × (knows self fault ≡ true) }
        ensures { result ≡ after_fault self tick fault }
    {
        match fault {
            Fault::Crash(id) => self.crashed(id as usize, tick),
            Fault::Restart(id) => self.restarted(id as usize, tick),
            Fault::Reboot(id) => self.rebooted(id as usize, tick),
            Fault::Partition(id) => self.parted(id as usize, true),
            Fault::Heal(id) => self.parted(id as usize, false),
            Fault::HealAll => self.healed(),
        }
    }

    // The plants after a fault and its answer, if no test refuses it.
    #[tactic(auto, using(crate::proofs::Testing::nonce_drawn, crate::proofs::Testing::nonce_missing), unfolding(crate::specs::Faults::applied, crate::specs::Faults::fault_tested))]
    fn faulted(
        self,
        tick: u64,
        fault: Fault,
        draws: &[u64],
    ) -> Result<(Plants, Option<u64>), Refusal>
        ensures { MatchResult result
            (λ next. applied self tick fault draws.now ≡ record { state = next.0; answer = Ok next.1 })
            (λ refusal. applied self tick fault draws.now ≡ record { state = self; answer = Err refusal }) }
    {
        self.test()?;
        if !self.knows(fault) {
            return Err(Refusal::UnknownPlant);
        }
        let next = self.after(tick, fault);
        if !next.counts_fit() {
            return Err(Refusal::CountFull);
        }
        let nonce = nonce_of(fault, draws)?;
        Ok((next, nonce))
    }

    // Injects a fault at a tick. A reboot uses the first of the lent draws, and answers it as the
    // plant's nonce. After a refusal the plants are as they came.
    pub fn apply(
        self,
        tick: u64,
        fault: Fault,
        draws: &[u64],
    ) -> After<Plants, Result<Option<u64>, Refusal>>
        ensures { result ≡ applied self tick fault draws.now }
    {
        match self.faulted(tick, fault, draws) {
            Ok((state, nonce)) => After {
                state,
                answer: Ok(nonce),
            },
            Err(refusal) => After {
                state: self,
                answer: Err(refusal),
            },
        }
    }

    // What becomes of a message that is due at plant `to`.
    #[tactic(auto, using(crate::proofs::Testing::bounds), unfolding(crate::specs::Verdicts::verdict_given, crate::specs::Verdicts::verdict_tested))]
    pub fn verdict(self, from: Origin, to: u64) -> Result<Verdict, Refusal>
        ensures { result ≡ verdict_given self from to }
    {
        self.test()?;
        let receiver = place(self.n, to)?;
        let sender_cut = match from {
            Origin::Replica(id) => {
                let sender = place(self.n, id)?;
                self.partitioned[sender]
            }
            Origin::Client(_) => false,
        };
        Ok(verdict_by(self.up[receiver], self.partitioned[receiver], sender_cut))
    }
}
