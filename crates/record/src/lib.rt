// The record check and reset: whether each field is within its range or mask, and the records that reset leaves.
#![tactic(auto)]

ghost use Rattle.std.specs.Prelude.{◌≡◌, cond, eqb};
ghost use Rattle.machine.specs.Registers as Table;
ghost use Rattle.machine.specs.Times as Times;
ghost use Rattle.machine.specs.Record as Record;
ghost use Rattle.registers.specs.Places.{address_of};

use machine::{Device, FlagTimes, Interrupts, Receiver, Sender, Serial, Timer2, Timers};
use registers::Register;

// A register within its implemented bits.
fn within(kind: u8, r: Register, x: u8) -> bool
    ensures { result ≡ Table.within (Table.implemented kind (address_of r)) x }
{
    (x & registers::implemented(kind, r)) == x
}

// Each register within its implemented bits.
fn registers_ok(d: Device) -> bool
    ensures { result ≡ Record.registers_ok d.kind (Record.registers d) }
{
    within(d.kind, Register::Pcon, d.pcon)
        & within(d.kind, Register::Tcon, d.timers.tcon)
        & within(d.kind, Register::Tmod, d.timers.tmod)
        & within(d.kind, Register::Tl0, d.timers.tl0)
        & within(d.kind, Register::Tl1, d.timers.tl1)
        & within(d.kind, Register::Th0, d.timers.th0)
        & within(d.kind, Register::Th1, d.timers.th1)
        & within(d.kind, Register::Scon, d.serial.scon)
        & within(d.kind, Register::Sbuf, d.serial.received)
        & within(d.kind, Register::Ie, d.interrupts.ie)
        & within(d.kind, Register::Ip, d.interrupts.ip)
        & within(d.kind, Register::T2con, d.timer2.t2con)
        & within(d.kind, Register::Rcap2l, d.timer2.rcap2l)
        & within(d.kind, Register::Rcap2h, d.timer2.rcap2h)
        & within(d.kind, Register::Tl2, d.timer2.tl2)
        & within(d.kind, Register::Th2, d.timer2.th2)
}

// Each hidden field within its range. Position 11 is allowed only in serial modes 2 and 3; on kind 51 the T2 due mark is 0.
fn hidden_ok(d: Device) -> bool
    ensures { result ≡ Record.hidden_ok (Record.hidden_fields d) }
{
    let last = laws::picked(2 <= ticks::mode_of(d.serial.scon), 11, 10);
    let due_most = laws::picked(d.kind == 51, 0, 1);
    (d.serial.send.position <= last)
        & (d.serial.send.value <= 511)
        & (d.serial.send.counter <= 15)
        & (d.serial.receive.position <= last)
        & (d.serial.receive.value <= 511)
        & (d.serial.receive.counter <= 15)
        & (d.serial.receive.votes <= 2)
        & (d.serial.receive.sample <= 1)
        & (d.serial.half <= 1)
        & (d.timers.due0 <= 1)
        & (d.timers.due1 <= 1)
        & (d.timer2.due2 <= due_most)
        & (d.interrupts.seen <= 63)
        & (d.interrupts.polled <= 63)
        & (d.interrupts.low <= 1)
        & (d.interrupts.high <= 1)
}

// Each saved level 0 or 1.
fn levels_ok(l: [u8; 7]) -> bool
    ensures { result ≡ Record.levels_ok l }
{
    (l[0] <= 1) & (l[1] <= 1) & (l[2] <= 1) & (l[3] <= 1) & (l[4] <= 1) & (l[5] <= 1) & (l[6] <= 1)
}

// What a flag's pair holds beside a never.
fn held(ever: u8, number: u64) -> u64
    ensures { result ≡ cond (eqb ever 0) number 0 }
{
    laws::picked(ever == 0, number, 0)
}

// Each of the eight pairs says ever with any number, or never with 0: no ever is above 1, and beside no never stands a number.
fn pairs_ok(e: [u8; 8], n: [u64; 8]) -> bool
    ensures { result ≡ Times.pairs_ok e n }
{
    let ever = e[0] | e[1] | e[2] | e[3] | e[4] | e[5] | e[6] | e[7];
    let number = held(e[0], n[0])
        | held(e[1], n[1])
        | held(e[2], n[2])
        | held(e[3], n[3])
        | held(e[4], n[4])
        | held(e[5], n[5])
        | held(e[6], n[6])
        | held(e[7], n[7]);
    (ever <= 1) & (number == 0)
}

// The record check: kind 51 or 52, each field within its range or mask, and the flag times.
pub fn accepts(d: Device) -> bool
    ensures { result ≡ Record.accepted d }
{
    let l = d.levels;
    let e = d.times.ever;
    let n = d.times.number;
    ((d.kind == 51) | (d.kind == 52))
        & registers_ok(d)
        & hidden_ok(d)
        & levels_ok(l)
        & pairs_ok(e, n)
}

// All zero but for the kind, the last line sample and the saved levels.
fn blank(kind: u8, sample: u8, level: u8) -> Device
    ensures { result ≡ Record.blank kind sample level }
{
    Device {
        kind: kind,
        pcon: 0,
        timers: Timers {
            tcon: 0,
            tmod: 0,
            tl0: 0,
            tl1: 0,
            th0: 0,
            th1: 0,
            due0: 0,
            due1: 0,
        },
        timer2: Timer2 {
            t2con: 0,
            rcap2l: 0,
            rcap2h: 0,
            tl2: 0,
            th2: 0,
            due2: 0,
        },
        serial: Serial {
            scon: 0,
            send: Sender {
                position: 0,
                value: 0,
                counter: 0,
            },
            receive: Receiver {
                position: 0,
                value: 0,
                counter: 0,
                votes: 0,
                sample: sample,
            },
            half: 0,
            received: 0,
        },
        interrupts: Interrupts {
            ie: 0,
            ip: 0,
            seen: 0,
            polled: 0,
            low: 0,
            high: 0,
        },
        levels: [level, level, level, level, level, level, level],
        cycle: 0,
        times: FlagTimes {
            ever: [0, 0, 0, 0, 0, 0, 0, 0],
            number: [0, 0, 0, 0, 0, 0, 0, 0],
        },
    }
}

// Reset gives zeros, saved levels and last line sample 1.
pub fn reset_of(kind: u8) -> Device
    ensures { result ≡ Record.reset_of kind }
{
    blank(kind, 1, 1)
}

// What a refused reset leaves: all zero, kind 0.
pub fn zeros() -> Device
    ensures { result ≡ Record.zeros }
{
    blank(0, 0, 0)
}
