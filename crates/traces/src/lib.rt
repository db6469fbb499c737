// Trace runs: the entries judged whole, and then the cycles of each in turn, by jumps.
#![tactic(auto)]

ghost use Rattle.std.specs.Prelude.{◌≡◌, true, ◌≤◌, length};
ghost use Rattle.machine.specs.Record.{accepted};
ghost use Rattle.machine.specs.Calls.{most_entries, entry_pins, entry_cycles, entry_fault, trace_fault, trace_cycles, trace_totals};
ghost use Rattle.machine.specs.Outcomes.{code_of};

use cycle::Run;
use machine::refusals::Refusal;
use machine::{Device, MOST_ENTRIES};

// A trace entry's pin byte, its top 8 bits.
fn entry_pins(e: u32) -> u8
    ensures { result ≡ entry_pins e }
{
    ((e >> 24) & 0xff) as u8
}

// A trace entry's cycles, its low 24 bits.
fn entry_cycles(e: u32) -> u64
    ensures { result ≡ entry_cycles e }
{
    (e & 0xffffff) as u64
}

// Whether an entry is good: its pin byte is judged before its cycles.
#[tactic(auto, unfolding(machine::specs::Calls::entry_fault))]
fn entry_fault(e: u32) -> Result<(), Refusal>
    ensures { code_of result ≡ entry_fault e }
{
    if entry_pins(e) >= 128 {
        return Err(Refusal::BadPins);
    }
    if entry_cycles(e) == 0 {
        return Err(Refusal::EmptyEntry);
    }
    Ok(())
}

// Whether a trace may run: its length goes first, then its first bad entry.
#[tactic(auto, unfolding(machine::specs::Calls::trace_fault))]
pub fn trace_fault(entries: &[u32]) -> Result<(), Refusal>
    ensures { code_of result ≡ trace_fault entries.now }
{
    if entries.len() > MOST_ENTRIES {
        return Err(Refusal::TooLong);
    }
    for e in entries {
        entry_fault(*e)?;
    }
    Ok(())
}

// The cycles of each entry in turn, with its pin byte as it is given, and the overflows in them.
pub fn run_entries(d: Device, entries: &[u32]) -> Run
    requires { (accepted d ≡ true) × (length entries.now ≤ most_entries) }
    ensures { (result.totals ≡ trace_totals entries.now d) × (result.device ≡ trace_cycles entries.now d) }
{
    let mut run = Run {
        totals: totals::none(),
        device: d,
    };
    for e in entries {
        let pins = cycle::pins_of(run.device.kind, entry_pins(*e));
        let a = jump::advance(run, pins, entry_cycles(*e));
        run = a.run;
    }
    run
}
