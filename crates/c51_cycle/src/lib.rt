// For C: one machine cycle over a device record that is lent by reference and altered there, thin over `c51_run::cycle`; nothing is
// asked of the record. An export by itself, so that the compiler makes one function of it and all that it calls.
#![tactic(auto)]

ghost use Rattle.std.specs.Prelude.{◌≡◌};
ghost use Rattle.machine.specs.Calls as Machine;

use machine::Device;

// A cycle's code and the output line as it leaves it. C has no Result: 0 or the number, and zeros.
#[repr(C)]
#[derive(Clone, Copy)]
pub struct LineAnswer {
    pub code: u8,
    pub line: u8,
}

// One machine cycle with a pin byte: 1, 4.
#[unsafe(no_mangle)]
pub extern "C" fn c51_cycle(d: &mut Device, pins: u8) -> LineAnswer
    ensures { (result.code ≡ (Machine.cycle_answer d.old pins).code) × ((result.line ≡ (Machine.cycle_answer d.old pins).line) × (d.new ≡ (Machine.cycle_answer d.old pins).device)) }
{
    match c51_run::cycle(d, pins) {
        Ok(line) => LineAnswer {
            code: 0,
            line: line,
        },
        Err(e) => LineAnswer {
            code: e.number(),
            line: 0,
        },
    }
}
