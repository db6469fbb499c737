// The public calls that reset a device and reach its registers. Each gives what the plain machine answers, on every record, address and
// byte: its refusals in their order, and then the call. Nothing else is exported.
#![tactic(auto)]

ghost use Rattle.std.specs.Prelude.{◌≡◌};
ghost use Rattle.machine.specs.Calls as Machine;
ghost use Rattle.machine.specs.Outcomes.{answered, read_answered};
ghost use Rattle.machine.specs.Lists.{Call, play, reply_of_read};

use answers::kind_ok;
use machine::Device;
use machine::refusals::Refusal;

// Reset; a refused one leaves the record of zeros.
#[tactic(auto, unfolding(machine::specs::Calls::reset_answer))]
pub fn reset(d: &mut Device, kind: u8) -> Result<(), Refusal>
    ensures { answered result d.new ≡ Machine.reset_answer kind }
{
    if !kind_ok(kind) {
        *d = record::zeros();
        return Err(Refusal::BadKind);
    }
    *d = record::reset_of(kind);
    Ok(())
}

// Read a register, for SBUF the received byte.
#[tactic(auto, unfolding(machine::specs::Calls::read_answer, machine::specs::Lists::play))]
pub fn read(d: Device, address: u8) -> Result<u8, Refusal>
    ensures { (read_answered result ≡ Machine.read_answer d address) × (reply_of_read (read_answered result) ≡ (play (Call.read address) d).reply) }
{
    if !record::accepts(d) {
        return Err(Refusal::BadRecord);
    }
    let (register, _) = registers::find(d.kind, address)?;
    Ok(registers::value_of(d, register))
}

// Write a register's implemented bits.
#[tactic(auto, unfolding(machine::specs::Calls::write_answer))]
pub fn write(d: &mut Device, address: u8, value: u8) -> Result<(), Refusal>
    ensures { answered result d.new ≡ Machine.write_answer d.old address value }
{
    if !record::accepts(*d) {
        return Err(Refusal::BadRecord);
    }
    if laws::powered_down(d.pcon) {
        return Err(Refusal::PoweredDown);
    }
    let (register, mask) = registers::find(d.kind, address)?;
    *d = registers::stored(*d, register, value & mask);
    Ok(())
}
