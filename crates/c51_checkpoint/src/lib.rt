// The public calls that move a device to another computer: a save writes its checkpoint into a lent buffer, a load puts the device of a
// lent file into a lent record. Each answers what the plain machine answers, on every record, buffer and file: its refusals in their
// order, and then the call. Nothing else is exported.
#![tactic(auto)]

ghost use Rattle.std.specs.Prelude.{◌≡◌};
ghost use Rattle.machine.specs.Checkpoint as Machine;
ghost use Rattle.machine.specs.Outcomes.{code_of, answered};

use machine::Device;
use machine::refusals::Refusal;

// What a save is refused by.
fn refusal(d: Device, size: usize) -> Result<(), Refusal>
    ensures { code_of result ≡ Machine.save_fault d size }
{
    if !record::accepts(d) {
        return Err(Refusal::BadRecord);
    }
    if size != layout::length(d.kind) {
        return Err(Refusal::BadLength);
    }
    Ok(())
}

// Save: the file of a device, into a buffer of its length. A refused one leaves the buffer untouched.
pub fn save(d: Device, buffer: &mut [u8]) -> Result<(), Refusal>
    ensures { (code_of result ≡ (Machine.save_answer d buffer.old).code) × (buffer.new ≡ (Machine.save_answer d buffer.old).buffer) }
{
    refusal(d, buffer.len())?;
    checkpoint::write(d.kind, values::values_of(d), buffer);
    Ok(())
}

// Load: the device of a file. A refused one leaves the kind 0 record.
pub fn load(d: &mut Device, file: &[u8]) -> Result<(), Refusal>
    ensures { answered result d.new ≡ Machine.load_answer file.now }
{
    *d = record::zeros();
    let kind = checkpoint::kind_in(file);
    let r = checkpoint::read(kind, file)?;
    if r.at < file.len() {
        return Err(Refusal::BadLength);
    }
    *d = values::device_of(kind, r.values);
    Ok(())
}
