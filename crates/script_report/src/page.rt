// The bytes of a report, written one piece behind the other.
ghost use Rattle.std.specs.Prelude.{◌≡◌, ◌+◌, ◌*◌, ◌/◌, ◌≤◌, length};
ghost use Rattle.numeral.specs.Writing.{decimal};
ghost use Rattle.order.specs.Order.{events_in};
ghost use Rattle.script_report.specs.Report.{most_reported, number_line, name_of, fault_line, event_text, events_text, listed, reason_text, refusal_text};
ghost use Rattle.script_report.specs.Pages.{Adds, HasRoom};

use script::Refused;
use script::line::Refusal;

// The number of the fault that has no id.
const HEAL_ALL: u64 = 5;

// The lent bytes, and how many at their front are written.
#[derive(Drop)]
pub struct Page<'a> {
    pub out: &'a mut [u8],
    pub at: usize,
}

impl Page<'_> {
    // The lines of a refusal.
    pub fn put_refusal(&mut self, refused: Refused)
        requires { HasRoom self.old 106 }
        ensures { Adds self.old self.new (refusal_text refused.refusal refused.line) }
    {
        self.put_number_line(b"refusal=", refused.refusal.number());
        self.put_number_line(b"line=", refused.line as u64);
        self.put_reason(refused.refusal);
    }

    // Why and where a number went bad, where it is that.
    fn put_reason(&mut self, refusal: Refusal)
        requires { HasRoom self.old 51 }
        ensures { Adds self.old self.new (reason_text refusal) }
    {
        if let Refusal::BadTick(flaw) | Refusal::BadId(flaw) = refusal {
            self.put_number_line(b"why=", flaw.why.number());
            self.put_number_line(b"byte=", flaw.byte as u64);
        }
    }

    // The count of some events and then each of them.
    pub fn put_events(&mut self, events: &[u64])
        requires whole { length events.now ≡ 3 * (length events.now / 3) }
        requires room { HasRoom self.old (28 + 66 * (length events.now / 3)) }
        ensures { Adds self.old self.new (listed (length events.now / 3) (events_in events.now)) }
    {
        self.put_number_line(b"events=", (events.len() / 3) as u64);
        for i in 0..events.len() / 3 {
            self.put_event(events[3 * i], events[3 * i + 1], events[3 * i + 2]);
        }
    }

    // The lines of one event.
    fn put_event(&mut self, tick: u64, fault: u64, id: u64)
        requires { HasRoom self.old 66 }
        ensures { Adds self.old self.new (event_text (record { tick = tick; fault = fault; id = id })) }
    {
        self.put_number_line(b"tick=", tick);
        self.put_fault_line(fault);
        if fault != HEAL_ALL {
            self.put_number_line(b"id=", id);
        }
    }

    // A line with a fault's name, by its number.
    fn put_fault_line(&mut self, fault: u64)
        requires { HasRoom self.old 16 }
        ensures { Adds self.old self.new (fault_line fault) }
    {
        let name: &[u8] = match fault {
            0 => b"crash",
            1 => b"restart",
            2 => b"reboot",
            3 => b"partition",
            4 => b"heal",
            _ => b"heal-all",
        };
        self.put_bytes(b"fault=");
        self.put_bytes(name);
        self.put_bytes(b"\n");
    }

    // A line with a key and a number.
    fn put_number_line(&mut self, key: &[u8], n: u64)
        requires { HasRoom self.old (length key.now + 21) }
        ensures { Adds self.old self.new (number_line key.now n) }
    {
        self.put_bytes(key);
        self.put_number(n);
        self.put_bytes(b"\n");
    }

    // A number as plain decimal.
    fn put_number(&mut self, n: u64)
        requires { HasRoom self.old 20 }
        ensures { Adds self.old self.new (decimal n) }
    {
        self.at = numeral::write(n, self.out, self.at).unwrap();
    }

    // Bytes as they are.
    fn put_bytes(&mut self, bytes: &[u8])
        requires { HasRoom self.old (length bytes.now) }
        ensures { Adds self.old self.new bytes.now }
    {
        let end = self.at + bytes.len();
        self.out[self.at..end].copy_from_slice(bytes);
        self.at = end;
    }
}
