// Looks by the rounds of a jump: the first cycle in which a flag rises, and the first after which an interrupt is offered. They answer no
// overflow totals. `pins` is the pin byte as the kind takes it.
#![tactic(auto)]

ghost use Rattle.std.specs.Prelude.{◌≡◌, ◌≤◌, Bool};
ghost use Rattle.machine.specs.Calls.{longest, first_cycle, rises, first_rise, first_offer};
ghost use Rattle.machine.specs.Outcomes.{found};
ghost use Rattle.jump.specs.Rounds.{Ready};
ghost use Rattle.looks.specs.Tests.{FlagTest, Still};

use cycle::Run;
use flags::FlagRegisters;
use machine::Device;

// The first of n cycles that a test of the device before it and after it finds, or none, by the rounds of a jump. From a device to itself
// the test finds nothing.
// Where Timer 1's reload is all that happens, in a quiet run to the end, and in power-down, none is.
fn first_found<F: Fn(&Device, &Device) -> bool>(
    d: Device,
    pins: u8,
    n: u64,
    finds: F,
) -> Option<u64>
    requires callable { F.IsAlwaysCallable finds }
    requires ready { Ready pins d }
    requires within { n ≤ longest }
    ensures { (test : Device → Device → Bool) → FlagTest test → Still test d
        → ((before after : _) (r : Bool) → F.post finds before after r → r ≡ test before.now after.now)
        → found result ≡ first_cycle test 0 n pins d }
{
    // In power-down nothing happens.
    if laws::powered_down(d.pcon) {
        return None;
    }
    let mut at = d;
    let mut done = 0;
    // No index: a round passes as many cycles as it can.
    while done < n {
        let ahead = quiet::ahead(at, pins);
        if reload::idles(at, pins, ahead.settled) {
            return None;
        }
        let left = n - done;
        if ahead.room >= left {
            return None;
        }
        let from = Run {
            totals: totals::none(),
            device: at,
        };
        let r = jump::one_round(from, pins, left, ahead.room);
        done += r.used;
        if finds(&at, &r.run.device) {
            return Some(done);
        }
        at = r.run.device;
    }
    None
}

// A flag rises in a cycle.
fn rises(before: &Device, after: &Device) -> bool
    ensures { result ≡ rises before.now after.now }
{
    flags::any_rises(FlagRegisters::of(before), FlagRegisters::of(after))
}

// The first of n cycles in which a flag rises, or none.
pub fn first_rise(d: Device, pins: u8, n: u64) -> Option<u64>
    requires { Ready pins d × (n ≤ longest) }
    ensures { found result ≡ first_rise n pins d }
{
    first_found(d, pins, n, rises)
}

// The first k from 0 to n after which an interrupt is offered, or none: 0 where one is offered already.
pub fn first_offer(d: Device, pins: u8, n: u64) -> Option<u64>
    requires { Ready pins d × (n ≤ longest) }
    ensures { found result ≡ first_offer n pins d }
{
    if interrupts::offers(d.pcon, d.interrupts) {
        return Some(0);
    }
    first_found(d, pins, n, |_before: &Device, after: &Device| {
        interrupts::offers(after.pcon, after.interrupts)
    })
}
