// Step 4 of a machine cycle: the serial mode, and the ticks of the serial port.
#![tactic(auto)]

ghost use Rattle.std.specs.Prelude.{◌≡◌};
ghost use Rattle.machine.specs.Record.{serial_mode};
ghost use Rattle.machine.specs.Serial as S;

use laws::picked;
use machine::places::{RCLK, SM01, SMOD, TCLK};
use machine::{Serial, Ticks};

// The serial mode.
pub fn mode_of(scon: u8) -> u8
    ensures { result ≡ serial_mode scon }
{
    (scon >> SM01) & 3
}

// The ticks of a cycle in mode 2.
pub fn mode2_ticks(smod: u8) -> u8
    ensures { result ≡ S.mode2_ticks smod }
{
    picked(smod == 1, 6, 3)
}

// The ticks of a direction, from those of Timer 1 and of Timer 2.
fn ticks_of(mode: u8, smod: u8, clock: u8, by1: u8, by2: u8) -> u8
    ensures { result ≡ S.ticks_of mode smod clock by1 by2 }
{
    let timed = picked(clock == 1, by2, by1);
    picked(mode == 0, 0, picked(mode == 2, mode2_ticks(smod), timed))
}

// The ticks of Timer 1: with SMOD = 0 every second overflow.
pub fn ticks1(smod: u8, half: u8, overflow1: u8) -> u8
    ensures { result ≡ S.ticks1 smod half overflow1 }
{
    picked(smod == 1, overflow1, picked(half == 1, overflow1, 0))
}

// With SMOD = 0 an overflow flips half.
pub fn half_after(smod: u8, half: u8, overflow1: u8) -> u8
    ensures { result ≡ S.half_after smod half overflow1 }
{
    picked(smod == 1, half, half.wrapping_add(overflow1) & 1)
}

pub fn serial_ticks(pcon: u8, t2con: u8, s: Serial, overflow1: u8, overflows2: u8) -> Ticks
    ensures { result ≡ S.serial_ticks pcon t2con s overflow1 overflows2 }
{
    let mode = mode_of(s.scon);
    let smod = (pcon >> SMOD) & 1;
    let by1 = ticks1(smod, s.half, overflow1);
    let send = ticks_of(mode, smod, (t2con >> TCLK) & 1, by1, overflows2);
    let receive = ticks_of(mode, smod, (t2con >> RCLK) & 1, by1, overflows2);
    let half = half_after(smod, s.half, overflow1);
    Ticks {
        send: send,
        receive: receive,
        half: half,
    }
}
