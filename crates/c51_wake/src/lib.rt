// For C: a wake look over a device record passed by value, thin over `c51_run::wake`; nothing is asked of the record. An export by
// itself, so that the compiler makes one function of it and all that it calls.
#![tactic(auto)]

ghost use Rattle.std.specs.Prelude.{◌≡◌};
ghost use Rattle.looked.specs.Looked.{woken_answer};

use looked::LookedAnswer;
use machine::Device;
use machine::refusals::Refusal;

// The first k from 0 to n cycles with one pin byte after which an interrupt is offered, or none: 1, 4, 5.
#[unsafe(no_mangle)]
#[tactic(auto, unfolding(looked::specs::Looked::woken_answer))]
pub extern "C" fn c51_wake(d: Device, pins: u8, n: u64) -> LookedAnswer
    ensures { result ≡ woken_answer d pins n }
{
    looked::looked(c51_run::wake(d, pins, n).map_err(Refusal::number))
}
