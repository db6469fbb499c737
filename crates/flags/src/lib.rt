// The eight flags, TF0, TF1, IE0, IE1 in TCON, RI, TI in SCON, TF2, EXF2 in T2CON: whether one rises in a cycle, and the times when each
// last did.
#![tactic(auto)]

ghost use Rattle.std.specs.Prelude.{◌≡◌, ◌<◌};
ghost use Rattle.machine.specs.Bits.{bit};
ghost use Rattle.machine.specs.Flags.{rose, any_rises};
ghost use Rattle.machine.specs.Flags as Rule;
ghost use Rattle.machine.specs.Times as Times;
ghost use Rattle.flags.specs.Registers.{flags_in};

use laws::picked;
use machine::places::{EXF2, IE0, IE1, RI, SCON_FLAGS, T2CON_FLAGS, TCON_FLAGS, TF0, TF1, TF2, TI};
use machine::{Device, FlagTimes};

// The registers that hold the eight flags.
#[derive(Clone, Copy)]
pub struct FlagRegisters {
    pub tcon: u8,
    pub scon: u8,
    pub t2con: u8,
}

impl FlagRegisters {
    // Those of a device.
    pub fn of(d: &Device) -> FlagRegisters
        ensures { flags_in result ≡ Rule.flags d.now }
    {
        FlagRegisters {
            tcon: d.timers.tcon,
            scon: d.serial.scon,
            t2con: d.timer2.t2con,
        }
    }
}

// One of them rises: 0 before and 1 after.
pub fn any_rises(before: FlagRegisters, after: FlagRegisters) -> bool
    ensures { result ≡ any_rises (flags_in before) (flags_in after) }
{
    let tcon = (!before.tcon & after.tcon) & TCON_FLAGS;
    let scon = (!before.scon & after.scon) & SCON_FLAGS;
    let t2con = (!before.t2con & after.t2con) & T2CON_FLAGS;
    (!(tcon == 0) | !(scon == 0)) | !(t2con == 0)
}

// Bit k of a register rises.
fn rises(k: u8, before: u8, after: u8) -> bool
    requires { k < 8 }
    ensures { result ≡ rose (bit k before) (bit k after) }
{
    (((before >> k) & 1) == 0) & (((after >> k) & 1) == 1)
}

// Which of them rise, in their order.
fn risen(before: FlagRegisters, after: FlagRegisters) -> [bool; 8]
    ensures { result ≡ Rule.risen (flags_in before) (flags_in after) }
{
    [
        rises(TF0, before.tcon, after.tcon),
        rises(TF1, before.tcon, after.tcon),
        rises(IE0, before.tcon, after.tcon),
        rises(IE1, before.tcon, after.tcon),
        rises(RI, before.scon, after.scon),
        rises(TI, before.scon, after.scon),
        rises(TF2, before.t2con, after.t2con),
        rises(EXF2, before.t2con, after.t2con),
    ]
}

// The new value where a flag rises, otherwise what stood there.
fn noted<T: Copy>(r: [bool; 8], new: T, old: [T; 8]) -> [T; 8]
    ensures { result ≡ Times.noted new r old }
{
    [
        picked(r[0], new, old[0]),
        picked(r[1], new, old[1]),
        picked(r[2], new, old[2]),
        picked(r[3], new, old[3]),
        picked(r[4], new, old[4]),
        picked(r[5], new, old[5]),
        picked(r[6], new, old[6]),
        picked(r[7], new, old[7]),
    ]
}

// The times after a cycle that leaves this cycle number.
pub fn times_after(
    before: FlagRegisters,
    after: FlagRegisters,
    cycle: u64,
    t: FlagTimes,
) -> FlagTimes
    ensures { result ≡ Times.times_after cycle (Rule.risen (flags_in before) (flags_in after)) t }
{
    let r = risen(before, after);
    FlagTimes {
        ever: noted(r, 1, t.ever),
        number: noted(r, cycle, t.number),
    }
}
