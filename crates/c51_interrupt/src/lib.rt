// The public calls of the interrupt controller: what is offered, its take and the return. Each gives what the plain machine answers,
// on every record: its refusals in their order, and then the call. Nothing else is exported.
#![tactic(auto)]

ghost use Rattle.std.specs.Prelude.{◌≡◌};
ghost use Rattle.machine.specs.Calls as Machine;
ghost use Rattle.machine.specs.Outcomes.{answered, take_answered, offer_answered};
ghost use Rattle.machine.specs.Lists.{Call, play, reply_of_offer};

use machine::Device;
use machine::places::IDL;
use machine::refusals::Refusal;

// The vector offered, or nothing.
#[tactic(auto, unfolding(machine::specs::Calls::offer_answer, machine::specs::Calls::offer_of, machine::specs::Lists::play))]
pub fn offer(d: Device) -> Result<Option<u8>, Refusal>
    ensures { (offer_answered result ≡ Machine.offer_answer d) × (reply_of_offer (offer_answered result) ≡ (play Call.offer d).reply) }
{
    if !record::accepts(d) {
        return Err(Refusal::BadRecord);
    }
    Ok(interrupts::offered(d.pcon, d.interrupts).map(interrupts::vector_of))
}

// Take what is offered, which ends idle.
#[tactic(auto, using(laws::proofs::Bits::clear_bit_lem), unfolding(machine::specs::Calls::take_answer, machine::specs::Calls::take_of))]
pub fn take(d: &mut Device) -> Result<u8, Refusal>
    ensures { take_answered result d.new ≡ Machine.take_answer d.old }
{
    if !record::accepts(*d) {
        return Err(Refusal::BadRecord);
    }
    // In power-down 10 goes before 6.
    if laws::powered_down(d.pcon) {
        return Err(Refusal::PoweredDown);
    }
    let source = interrupts::offered(d.pcon, d.interrupts).ok_or(Refusal::NothingOffered)?;
    d.pcon &= !(1 << IDL);
    d.timers.tcon = interrupts::taken(source, d.timers.tcon);
    d.interrupts = interrupts::in_service(source, d.interrupts);
    Ok(interrupts::vector_of(source))
}

// Return from an interrupt (RETI).
#[tactic(auto, unfolding(machine::specs::Calls::return_answer))]
pub fn reti(d: &mut Device) -> Result<(), Refusal>
    ensures { answered result d.new ≡ Machine.return_answer d.old }
{
    if !record::accepts(*d) {
        return Err(Refusal::BadRecord);
    }
    // In power-down 10 goes before 7.
    if laws::powered_down(d.pcon) {
        return Err(Refusal::PoweredDown);
    }
    if interrupts::none_in_service(d.interrupts) {
        return Err(Refusal::NothingInService);
    }
    d.interrupts = interrupts::returned(d.interrupts);
    Ok(())
}
