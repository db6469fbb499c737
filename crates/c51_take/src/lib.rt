// For C: a take over a device record that is lent by reference and altered there, thin over `c51_interrupt::take`; nothing is asked of the
// record. An export by itself, so that the compiler makes one function of it and all that it calls.
#![tactic(auto)]

ghost use Rattle.std.specs.Prelude.{◌≡◌};
ghost use Rattle.machine.specs.Calls as Machine;

use machine::Device;

// A take's code and the vector. C has no Result: 0 or the number, and zeros.
#[repr(C)]
#[derive(Clone, Copy)]
pub struct VectorAnswer {
    pub code: u8,
    pub vector: u8,
}

// Take what is offered: 1, 10, 6.
#[unsafe(no_mangle)]
pub extern "C" fn c51_take(d: &mut Device) -> VectorAnswer
    ensures { (result.code ≡ (Machine.take_answer d.old).code) × ((result.vector ≡ (Machine.take_answer d.old).vector) × (d.new ≡ (Machine.take_answer d.old).device)) }
{
    match c51_interrupt::take(d) {
        Ok(vector) => VectorAnswer { code: 0, vector },
        Err(e) => VectorAnswer {
            code: e.number(),
            vector: 0,
        },
    }
}
