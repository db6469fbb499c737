// One count of a timer's pair, by its mode: 13 bits, 16 bits, 8 bits with reload, 8 bits.
#![tactic(auto)]

ghost use Rattle.std.specs.Prelude.{◌≡◌, if◌then◌else◌};
ghost use Rattle.machine.specs.Counting as Counting;
ghost use Rattle.machine.specs.Timers as Step;

use laws::{Pair, picked};
use machine::Count;

// 1 where a count of 8 bits goes from all ones to zero.
#[tactic(auto, using(laws::proofs::Counting::carry, laws::proofs::Bits::from_bool))]
pub fn overflow8(n: u8) -> u8
    ensures { result ≡ Counting.overflow 8 n }
{
    u8::from(n.wrapping_add(1) == 0)
}

// Mode 0: 13 bits, TH and the low 5 of TL; the top 3 of TL are kept.
#[tactic(auto, using(laws::proofs::Bits::bits))]
fn count13(p: Pair) -> Count
    ensures { result ≡ Counting.count13 p.tl p.th }
{
    let n = p.of13() + 1;
    Count {
        tl: (p.tl & 0xe0) | ((n & 0x1f) as u8),
        th: ((n >> 5) & 0xff) as u8,
        overflow: (n >> 13) as u8,
    }
}

// Mode 1: 16 bits.
#[tactic(auto, using(laws::proofs::Bits::bits, laws::proofs::Counting::carry, laws::proofs::Bits::from_bool), unfolding(machine::specs::Counting::count16))]
fn count16(p: Pair) -> Count
    ensures { result ≡ Counting.count16 p.tl p.th }
{
    let n = p.of16().wrapping_add(1);
    Count {
        tl: (n & 0xff) as u8,
        th: (n >> 8) as u8,
        overflow: u8::from(n == 0),
    }
}

// Mode 2: TL alone, reloaded from TH on overflow.
#[tactic(auto, unfolding(machine::specs::Counting::reload8))]
fn reload8(p: Pair) -> Count
    ensures { result ≡ Counting.reload8 p.tl p.th }
{
    let overflow = overflow8(p.tl);
    Count {
        tl: picked(overflow == 1, p.th, p.tl.wrapping_add(1)),
        th: p.th,
        overflow,
    }
}

// TL0 in mode 3: 8 bits.
#[tactic(auto, unfolding(machine::specs::Counting::count8))]
pub fn count8(p: Pair) -> Count
    ensures { result ≡ Counting.count8 p.tl p.th }
{
    Count {
        tl: p.tl.wrapping_add(1),
        th: p.th,
        overflow: overflow8(p.tl),
    }
}

// Timer 1 in mode 3, and a timer that does not count, hold.
#[tactic(auto, unfolding(machine::specs::Counting::hold))]
pub fn hold(p: Pair) -> Count
    ensures { result ≡ Counting.hold p.tl p.th }
{
    Count {
        tl: p.tl,
        th: p.th,
        overflow: 0,
    }
}

// One count in modes 0, 1 and 2; what mode 3 does is handed in.
#[tactic(auto, unfolding(machine::specs::Timers::count_in))]
fn count_in(mode: u8, three: Count, p: Pair) -> Count
    ensures { result ≡ Step.count_in mode three p.tl p.th }
{
    // A number: two bits of TMOD, and each of the four values is a mode.
    match mode {
        0 => count13(p),
        1 => count16(p),
        2 => reload8(p),
        _ => three,
    }
}

// A timer's pair after this cycle: after a count in its mode, or as it was.
pub fn pair_after(counts: bool, mode: u8, three: Count, p: Pair) -> Count
    ensures { result ≡ (if counts then Step.count_in mode three p.tl p.th else Counting.hold p.tl p.th) }
{
    if counts {
        count_in(mode, three, p)
    } else {
        hold(p)
    }
}
