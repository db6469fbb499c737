// For C: an offer of a device record passed by value, thin over `c51_interrupt::offer`; nothing is asked of the record. An export by
// itself, so that the compiler makes one function of it and all that it calls.
#![tactic(auto)]

ghost use Rattle.std.specs.Prelude.{◌≡◌};
ghost use Rattle.c51_offer.specs.Offered.{offered_answer};

use machine::Device;

// An offer's code, 1 where an interrupt is offered, and its vector. C has no Result: 0 or the number, and zeros.
#[repr(C)]
#[derive(Clone, Copy)]
pub struct OfferedAnswer {
    pub code: u8,
    pub offered: u8,
    pub vector: u8,
}

// The vector offered, or nothing: 1.
#[unsafe(no_mangle)]
#[tactic(auto, unfolding(crate::specs::Offered::offered_answer))]
pub extern "C" fn c51_offer(d: Device) -> OfferedAnswer
    ensures { result ≡ offered_answer d }
{
    match c51_interrupt::offer(d) {
        Ok(Some(vector)) => OfferedAnswer {
            code: 0,
            offered: 1,
            vector,
        },
        Ok(None) => OfferedAnswer {
            code: 0,
            offered: 0,
            vector: 0,
        },
        Err(e) => OfferedAnswer {
            code: e.number(),
            offered: 0,
            vector: 0,
        },
    }
}
