// For C: a look ahead over a device record passed by value, thin over `c51_run::look`; nothing is asked of the record. An export by
// itself, so that the compiler makes one function of it and all that it calls.
#![tactic(auto)]

ghost use Rattle.std.specs.Prelude.{◌≡◌};
ghost use Rattle.looked.specs.Looked.{looked_answer};

use looked::LookedAnswer;
use machine::Device;
use machine::refusals::Refusal;

// The first of n cycles with one pin byte in which a flag rises, or none: 1, 4, 5.
#[unsafe(no_mangle)]
#[tactic(auto, unfolding(looked::specs::Looked::looked_answer))]
pub extern "C" fn c51_look(d: Device, pins: u8, n: u64) -> LookedAnswer
    ensures { result ≡ looked_answer d pins n }
{
    looked::looked(c51_run::look(d, pins, n).map_err(Refusal::number))
}
