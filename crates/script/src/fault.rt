// A fault injected by hand: what happens to which plant.
ghost use Rattle.std.specs.Prelude.{◌≡◌};
ghost use Rattle.script.specs.Faults.{fault_number, fault_id, needs_id, with_id, same, named_by};

#[derive(Clone, Copy, Debug, PartialEq, Eq)]
pub enum Fault {
    // Crash a plant; it keeps its state, as if paused.
    Crash(u64),
    // Bring a crashed plant back with its state.
    Restart(u64),
    // Bring a crashed plant back with no memory, through recovery.
    Reboot(u64),
    // Cut a plant off from every other plant and client.
    Partition(u64),
    // Reconnect a partitioned plant.
    Heal(u64),
    // Reconnect every partitioned plant.
    HealAll,
}

impl Fault {
    // Its number in an event.
    pub fn number(self) -> u64
        ensures { result ≡ fault_number self }
    {
        match self {
            Fault::Crash(_) => 0,
            Fault::Restart(_) => 1,
            Fault::Reboot(_) => 2,
            Fault::Partition(_) => 3,
            Fault::Heal(_) => 4,
            Fault::HealAll => 5,
        }
    }

    // The plant that it names; 0 where it names none.
    // Kept: an event has a word for its id in the C interface too (bellmantle_parse_script), which is 0 there.
    pub fn id(self) -> u64
        ensures { result ≡ fault_id self }
    {
        match self {
            Fault::Crash(id)
            | Fault::Restart(id)
            | Fault::Reboot(id)
            | Fault::Partition(id)
            | Fault::Heal(id) => id,
            Fault::HealAll => 0,
        }
    }

    // Whether it is a fault of one plant.
    pub fn needs_id(self) -> bool
        ensures { result ≡ needs_id self }
    {
        !matches!(self, Fault::HealAll)
    }

    // The same fault of another plant.
    pub fn with_id(self, id: u64) -> Fault
        ensures { result ≡ with_id self id }
    {
        match self {
            Fault::Crash(_) => Fault::Crash(id),
            Fault::Restart(_) => Fault::Restart(id),
            Fault::Reboot(_) => Fault::Reboot(id),
            Fault::Partition(_) => Fault::Partition(id),
            Fault::Heal(_) => Fault::Heal(id),
            Fault::HealAll => Fault::HealAll,
        }
    }
}

// Whether a word is a name, byte for byte.
// Kept: not `==`, which is a call of the library at each name that is as long as the word; with it 64 KiB of lines took a twentieth longer.
fn is(word: &[u8], name: &[u8]) -> bool
    ensures { result ≡ same word.now name.now }
{
    check::same(word, name)
}

// The fault that a word names, of plant 0 where it needs one.
pub fn fault_of(word: &[u8]) -> Option<Fault>
    ensures { result ≡ named_by word.now }
{
    // Kept: a `match` on the byte strings leaves a goal for each byte that may differ, 48 in all.
    if is(word, b"crash") {
        return Some(Fault::Crash(0));
    }
    if is(word, b"restart") {
        return Some(Fault::Restart(0));
    }
    if is(word, b"reboot") {
        return Some(Fault::Reboot(0));
    }
    if is(word, b"partition") {
        return Some(Fault::Partition(0));
    }
    if is(word, b"heal") {
        return Some(Fault::Heal(0));
    }
    if is(word, b"heal-all") {
        return Some(Fault::HealAll);
    }
    None
}
