// The public calls of the 82C53. Each gives what the plain 82C53 answers, on every record, address, byte, gate byte and length: its
// refusals in their order, and then the call. A refused call leaves the chip as it was. Nothing else is exported.
#![tactic(auto)]

ghost use Rattle.std.specs.Prelude.{◌≡◌, ◌<◌};
ghost use Rattle.std.specs.Borrow.{sem};
ghost use Rattle.interval.specs.Interval as Plain;
ghost use Rattle.interval.specs.Calls as Calls;
ghost use Rattle.interval.specs.Outcomes.{write_answered, read_answered, pulse_answered};
ghost use Rattle.c53.specs.Lending.{LendsCounter};

use interval::{Counter, Interval};
use interval_counter::{BOTH, SC, control, counter_ok, fresh, read_byte, write_byte};
use machine::LONGEST;
use machine::refusals::Refusal;

// The address of the control word.
const CONTROL: u8 = 3;

// The record check: each field of each counter within its range.
#[tactic(auto, unfolding(interval::specs::Interval::accepted))]
pub fn accepts(c: Interval) -> bool
    ensures { result ≡ Plain.accepted c }
{
    counter_ok(c.counter0) & (counter_ok(c.counter1) & counter_ok(c.counter2))
}

// The outputs, bits 0 to 2.
#[tactic(auto, unfolding(interval::specs::Interval::outputs))]
pub fn outputs(c: Interval) -> u8
    ensures { result ≡ Plain.outputs c }
{
    (c.counter0.output & 1) + (c.counter1.output & 1) * 2 + (c.counter2.output & 1) * 4
}

// The counter of a choice, 0 to 2.
#[tactic(auto, unfolding(interval::specs::Interval::counter_at, interval::specs::Interval::put_at))]
fn counter_mut(c: &mut Interval, i: u8) -> &mut Counter
    requires { i < 3 }
    ensures* puts_back { sem 𝓛 (LendsCounter i c.entry result) }
    ensures chosen { result.now ≡ Plain.counter_at i c.old }
{
    // A number: two bits of the control word, or an address, choose a counter.
    match i {
        0 => &mut c.counter0,
        1 => &mut c.counter1,
        _ => &mut c.counter2,
    }
}

// Reset.
#[tactic(auto, unfolding(interval::specs::Interval::reset_of))]
pub fn reset() -> Interval
    ensures { result ≡ Plain.reset_of }
{
    let k = fresh(0, 0, BOTH, 0);
    Interval {
        counter0: k,
        counter1: k,
        counter2: k,
    }
}

// A control word: 12 for counter choice 3, before 11 for another mode.
#[tactic(auto, using(machine::proofs::Outcomes::number_not_0, interval::proofs::Outcomes::put_back), unfolding(interval::specs::Calls::control_answer, interval::specs::Calls::answered))]
fn write_control(c: &mut Interval, word: u8) -> Result<(), Refusal>
    ensures { write_answered result c.new ≡ Calls.control_answer word c.old }
{
    let choice = word >> SC;
    if choice >= 3 {
        return Err(Refusal::BadChoice);
    }
    let k = counter_mut(c, choice);
    *k = control(word, *k)?;
    Ok(())
}

// Write a byte of a count at 0 to 2, the control word at 3.
#[tactic(auto, using(machine::proofs::Outcomes::number_not_0, interval::proofs::Outcomes::put_back), unfolding(interval::specs::Calls::write_answer, interval::specs::Calls::answered))]
pub fn write(c: &mut Interval, address: u8, byte: u8) -> Result<(), Refusal>
    ensures { write_answered result c.new ≡ Calls.write_answer c.old address byte }
{
    if !accepts(*c) {
        return Err(Refusal::BadRecord);
    }
    if address > CONTROL {
        return Err(Refusal::BadChoice);
    }
    if address == CONTROL {
        return write_control(c, byte);
    }
    let k = counter_mut(c, address);
    *k = write_byte(byte, *k)?;
    Ok(())
}

// Read a byte of a count at 0 to 2: of the latch, or of the count as it stands.
#[tactic(auto, using(interval::proofs::Ranges::ok_at), unfolding(interval::specs::Calls::read_answer))]
pub fn read(c: &mut Interval, address: u8) -> Result<u8, Refusal>
    ensures { read_answered result c.new ≡ Calls.read_answer c.old address }
{
    if !accepts(*c) {
        return Err(Refusal::BadRecord);
    }
    if address >= CONTROL {
        return Err(Refusal::BadChoice);
    }
    let k = counter_mut(c, address);
    let byte = read_byte(*k);
    *k = byte.counter;
    Ok(byte.value)
}

// One pulse with a gate byte; it gives the outputs as it leaves them.
#[tactic(auto, unfolding(interval::specs::Calls::pulse_answer, interval::specs::Interval::pulse_all))]
pub fn pulse(c: &mut Interval, gates: u8) -> Result<u8, Refusal>
    ensures { pulse_answered result c.new ≡ Calls.pulse_answer c.old gates }
{
    if !accepts(*c) {
        return Err(Refusal::BadRecord);
    }
    if gates >= 8 {
        return Err(Refusal::BadPins);
    }
    c.counter0 = interval_counter::pulse(gates & 1, c.counter0);
    c.counter1 = interval_counter::pulse((gates >> 1) & 1, c.counter1);
    c.counter2 = interval_counter::pulse((gates >> 2) & 1, c.counter2);
    Ok(outputs(*c))
}

// n pulses with one gate byte, at once.
#[tactic(auto, using(interval::proofs::Ranges::ok0, interval::proofs::Ranges::ok1, interval::proofs::Ranges::ok2, interval::proofs::Pulses::pulses_all_each, laws::proofs::Bits::bits), unfolding(interval::specs::Calls::jump_answer))]
pub fn jump(c: &mut Interval, gates: u8, n: u64) -> Result<u8, Refusal>
    ensures { pulse_answered result c.new ≡ Calls.jump_answer c.old gates n }
{
    if !accepts(*c) {
        return Err(Refusal::BadRecord);
    }
    if gates >= 8 {
        return Err(Refusal::BadPins);
    }
    if n > LONGEST {
        return Err(Refusal::TooLong);
    }
    c.counter0 = interval_jump::jump(n, gates & 1, c.counter0);
    c.counter1 = interval_jump::jump(n, (gates >> 1) & 1, c.counter1);
    c.counter2 = interval_jump::jump(n, (gates >> 2) & 1, c.counter2);
    Ok(outputs(*c))
}
