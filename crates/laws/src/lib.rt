// Laws of bits and fields for any place, of counting for any width, and of sleep: proofs/. Here what the parts share.
#![tactic(auto)]

ghost use Rattle.std.specs.Prelude.{◌≡◌, cond, ◌<◌};
ghost use Rattle.machine.specs.Power.{powered_down};
ghost use Rattle.machine.specs.Counting as Counting;
ghost use Rattle.machine.specs.Timers as Timers;

use machine::places::PD;

// The first of two values where b is true, otherwise the second.
pub fn picked<T: Copy>(b: bool, x: T, y: T) -> T
    ensures { result ≡ cond b x y }
{
    if b { x } else { y }
}

// PD is set: power-down.
#[tactic(auto, using(crate::proofs::Bits::and_one))]
pub fn powered_down(pcon: u8) -> bool
    ensures { result ≡ powered_down pcon }
{
    ((pcon >> PD) & 1) == 1
}

// A timer's register pair.
#[derive(Clone, Copy)]
pub struct Pair {
    pub tl: u8,
    pub th: u8,
}

impl Pair {
    // The 13 bits of mode 0: TH, and the low 5 of TL.
    #[tactic(auto, using(crate::proofs::Bits::bits, crate::proofs::Bits::join))]
    pub fn of13(self) -> u16
        ensures { result ≡ Counting.pair13 self.tl self.th }
    {
        ((self.th as u16) << 5) | ((self.tl as u16) & 0x1f)
    }

    // The 16 bits.
    #[tactic(auto, using(crate::proofs::Bits::join))]
    pub fn of16(self) -> u16
        ensures { result ≡ Counting.pair16 self.tl self.th }
    {
        ((self.th as u16) << 8) | (self.tl as u16)
    }
}

// An overflow sets bit k: a flag, or its source's bit of polled.
#[tactic(auto, using(crate::proofs::Bits::or_shl), unfolding(machine::specs::Timers::flagged))]
pub fn flagged(k: u8, overflow: u8, x: u8) -> u8
    requires { k < 8 }
    ensures { result ≡ Timers.flagged k overflow x }
{
    picked(overflow == 1, x | (1 << k), x)
}
