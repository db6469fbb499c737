// For C: a trace run over a device record that is lent by reference and altered there, thin over `c51_run::trace`; nothing is asked of
// the record. An export by itself, so that the compiler makes one function of it and all that it calls.
#![tactic(auto)]

ghost use Rattle.std.specs.Prelude.{◌≡◌};
ghost use Rattle.machine.specs.Calls as Machine;

use machine::{Device, Totals};

// A trace run's code and its overflow totals. C has no Result: 0 or the number, and zeros.
#[repr(C)]
#[derive(Clone, Copy)]
pub struct Traced {
    pub code: u8,
    pub totals: Totals,
}

// A trace run: 1, 5, 4, 8.
#[unsafe(no_mangle)]
pub extern "C" fn c51_trace(d: &mut Device, entries: &[u32]) -> Traced
    ensures { (result.code ≡ (Machine.trace_answer d.old entries.now).code) × ((result.totals ≡ (Machine.trace_answer d.old entries.now).totals) × (d.new ≡ (Machine.trace_answer d.old entries.now).device)) }
{
    match c51_run::trace(d, entries) {
        Ok(t) => Traced { code: 0, totals: t },
        Err(e) => Traced {
            code: e.number(),
            totals: totals::none(),
        },
    }
}
