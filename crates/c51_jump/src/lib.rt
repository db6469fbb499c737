// For C: a jump over a device record that is lent by reference and altered there, thin over `c51_run::jump`; nothing is asked of the
// record. An export by itself, so that the compiler makes one function of it and all that it calls.
#![tactic(auto)]

ghost use Rattle.std.specs.Prelude.{◌≡◌};
ghost use Rattle.machine.specs.Calls as Machine;

use machine::{Device, Totals};

// A jump's code, its overflow totals and its rounds. C has no Result: 0 or the number, and zeros.
#[repr(C)]
#[derive(Clone, Copy)]
pub struct Jumped {
    pub code: u8,
    pub totals: Totals,
    pub rounds: u64,
}

// n cycles with one pin byte: 1, 4, 5.
#[unsafe(no_mangle)]
pub extern "C" fn c51_jump(d: &mut Device, pins: u8, n: u64) -> Jumped
    ensures { (result.code ≡ (Machine.jump_answer d.old pins n).code) × ((result.totals ≡ (Machine.jump_answer d.old pins n).totals) × ((result.rounds ≡ (Machine.jump_answer d.old pins n).rounds) × (d.new ≡ (Machine.jump_answer d.old pins n).device))) }
{
    match c51_run::jump(d, pins, n) {
        Ok(j) => Jumped {
            code: 0,
            totals: j.totals,
            rounds: j.rounds,
        },
        Err(e) => Jumped {
            code: e.number(),
            totals: totals::none(),
            rounds: 0,
        },
    }
}
