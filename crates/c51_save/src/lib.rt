// For C: a save of a device record passed by value, into a lent buffer, thin over `c51_checkpoint::save`; nothing is asked of the record
// or of the buffer. An export by itself, as each call of a device is.
#![tactic(auto)]

ghost use Rattle.std.specs.Prelude.{◌≡◌};
ghost use Rattle.machine.specs.Checkpoint as Machine;

use machine::Device;
use machine::refusals::code_of;

// The checkpoint of a device, into a buffer of its length: 1, 15. A refused one leaves the buffer untouched.
#[unsafe(no_mangle)]
pub extern "C" fn c51_save(d: Device, buffer: &mut [u8]) -> u8
    ensures { (result ≡ (Machine.save_answer d buffer.old).code) × (buffer.new ≡ (Machine.save_answer d buffer.old).buffer) }
{
    code_of(c51_checkpoint::save(d, buffer))
}
