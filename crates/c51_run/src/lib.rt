// The public calls in which time passes. Each gives what the plain machine answers, on every record, pin byte, length and trace: its
// refusals in their order, and then the call. A refused call leaves the device as it was. Nothing else is exported.
#![tactic(auto)]

ghost use Rattle.std.specs.Prelude.{◌≡◌};
ghost use Rattle.machine.specs.Calls as Machine;
ghost use Rattle.machine.specs.Lists.{Call, play, reply_of_look};
ghost use Rattle.machine.specs.Outcomes.{code_of, cycle_answered, jump_answered, run_answered, look_answered};

use answers::pins_ok;
use cycle::Run;
use machine::refusals::Refusal;
use machine::{Device, Jumped, LONGEST, Totals};

// One machine cycle with a pin byte, and the output line as it leaves it; in power-down the device stays as it is.
#[tactic(auto, unfolding(machine::specs::Calls::cycle_answer))]
pub fn cycle(d: &mut Device, pins: u8) -> Result<u8, Refusal>
    ensures { cycle_answered result d.new ≡ Machine.cycle_answer d.old pins }
{
    if !record::accepts(*d) {
        return Err(Refusal::BadRecord);
    }
    if !pins_ok(pins) {
        return Err(Refusal::BadPins);
    }
    if laws::powered_down(d.pcon) {
        return Ok(serial::line_of(d.serial));
    }
    let from = Run {
        totals: totals::none(),
        device: *d,
    };
    let r = cycle::cycle_once(from, cycle::pins_of(d.kind, pins));
    *d = r.device;
    Ok(serial::line_of(d.serial))
}

// Whether n cycles with one pin byte may be made, in a jump and in a look.
#[tactic(auto, unfolding(machine::specs::Calls::cycles_fault))]
fn judged(d: Device, pins: u8, n: u64) -> Result<(), Refusal>
    ensures { code_of result ≡ Machine.cycles_fault d pins n }
{
    if !record::accepts(d) {
        return Err(Refusal::BadRecord);
    }
    if !pins_ok(pins) {
        return Err(Refusal::BadPins);
    }
    if n > LONGEST {
        return Err(Refusal::TooLong);
    }
    Ok(())
}

// A jump of n cycles with one pin byte, the overflows in them, and the rounds that they took.
pub fn jump(d: &mut Device, pins: u8, n: u64) -> Result<Jumped, Refusal>
    ensures { jump_answered result d.new ≡ Machine.jump_answer d.old pins n }
{
    let device = *d;
    judged(device, pins, n)?;
    let from = Run {
        totals: totals::none(),
        device,
    };
    let r = jump::advance(from, cycle::pins_of(device.kind, pins), n);
    *d = r.run.device;
    Ok(Jumped {
        totals: r.run.totals,
        rounds: r.rounds,
    })
}

// A trace run, each entry a pin byte on top and cycles in the low 24 bits; the entries are judged whole, in an order of their own.
#[tactic(auto, unfolding(machine::specs::Calls::trace_answer))]
pub fn trace(d: &mut Device, entries: &[u32]) -> Result<Totals, Refusal>
    ensures { run_answered result d.new ≡ Machine.trace_answer d.old entries.now }
{
    if !record::accepts(*d) {
        return Err(Refusal::BadRecord);
    }
    traces::trace_fault(entries)?;
    let r = traces::run_entries(*d, entries);
    *d = r.device;
    Ok(r.totals)
}

// A look ahead over n cycles with one pin byte: the first in which a flag rises, or none.
pub fn look(d: Device, pins: u8, n: u64) -> Result<Option<u64>, Refusal>
    ensures { (look_answered result ≡ Machine.look_answer d pins n) × (reply_of_look (look_answered result) ≡ (play (Call.look pins n) d).reply) }
{
    judged(d, pins, n)?;
    Ok(looks::first_rise(d, cycle::pins_of(d.kind, pins), n))
}

// A wake look over n cycles with one pin byte: the first k from 0 to n after which an interrupt is offered, or none. A call of its own, as
// the machine has it.
pub fn wake(d: Device, pins: u8, n: u64) -> Result<Option<u64>, Refusal>
    ensures { (look_answered result ≡ Machine.wake_answer d pins n) × (reply_of_look (look_answered result) ≡ (play (Call.wake pins n) d).reply) }
{
    judged(d, pins, n)?;
    Ok(looks::first_offer(d, cycle::pins_of(d.kind, pins), n))
}
