// For C: a write over a device record that is lent by reference and altered there, thin over `c51_access::write`; nothing is asked of the
// record. An export by itself, so that the compiler makes one function of it and all that it calls.
#![tactic(auto)]

ghost use Rattle.std.specs.Prelude.{◌≡◌};
ghost use Rattle.machine.specs.Calls as Machine;

use machine::Device;
use machine::refusals::code_of;

// Write a register's implemented bits: 1, 10, 3.
#[unsafe(no_mangle)]
pub extern "C" fn c51_write(d: &mut Device, address: u8, value: u8) -> u8
    ensures { (result ≡ (Machine.write_answer d.old address value).code) × (d.new ≡ (Machine.write_answer d.old address value).device) }
{
    code_of(c51_access::write(d, address, value))
}
