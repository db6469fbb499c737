// For C: a return over a device record that is lent by reference and altered there, thin over `c51_interrupt::reti`; nothing is asked of the
// record. An export by itself, so that the compiler makes one function of it and all that it calls.
#![tactic(auto)]

ghost use Rattle.std.specs.Prelude.{◌≡◌};
ghost use Rattle.machine.specs.Calls as Machine;

use machine::Device;
use machine::refusals::code_of;

// Return from an interrupt (RETI): 1, 10, 7.
#[unsafe(no_mangle)]
pub extern "C" fn c51_return(d: &mut Device) -> u8
    ensures { (result ≡ (Machine.return_answer d.old).code) × (d.new ≡ (Machine.return_answer d.old).device) }
{
    code_of(c51_interrupt::reti(d))
}
