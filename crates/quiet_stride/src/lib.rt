// The stride, which makes the cycles of a quiet run at once: the counters move on, and nothing else happens. `l` is the pin
// byte as the kind takes it.
#![tactic(auto)]

ghost use Rattle.std.specs.Prelude.{◌≡◌, ◌+◌, ◌%◌, ◌≤◌, if◌then◌else◌};
ghost use Rattle.machine.specs.Counting as Counting;
ghost use Rattle.machine.specs.Timers as Step;
ghost use Rattle.strides.specs.Stride as Stride;

use laws::Pair;
use machine::places::{RXD, SMOD};
use machine::{Count, Device, Receiver, Sender, Serial, Timer2, Timers};

// A timer's pair after m counts without an overflow: of 13 bits, where the top 3 of TL are kept.
fn by13(m: u16, p: Pair) -> Count
    requires { m ≤ Stride.left 13 (Counting.pair13 p.tl p.th) }
    ensures { result ≡ Stride.by13 m p.tl p.th }
{
    let n = p.of13() + m;
    Count {
        tl: (p.tl & 0xe0) | ((n & 0x1f) as u8),
        th: (n >> 5) as u8,
        overflow: 0,
    }
}

// Of 16 bits.
#[tactic(auto, using(laws::proofs::Bits::bits))]
fn by16(m: u16, p: Pair) -> Count
    requires { m ≤ Stride.left 16 (Counting.pair16 p.tl p.th) }
    ensures { result ≡ Stride.by16 m p.tl p.th }
{
    let n = p.of16() + m;
    Count {
        tl: (n & 0xff) as u8,
        th: (n >> 8) as u8,
        overflow: 0,
    }
}

// Of TL's 8 bits.
fn by8(m: u16, p: Pair) -> Count
    requires { m ≤ Stride.left 8 p.tl }
    ensures { result ≡ Stride.by8 m p.tl p.th }
{
    Count {
        tl: p.tl + (m as u8),
        th: p.th,
        overflow: 0,
    }
}

// By its mode.
#[tactic(auto, unfolding(strides::specs::Stride::left_in, strides::specs::Stride::moved_in))]
fn moved_in(m: u16, mode: u8, p: Pair) -> Count
    requires { m ≤ Stride.left_in mode p.tl p.th }
    ensures { result ≡ Stride.moved_in m mode p.tl p.th }
{
    // A number: two bits of TMOD, and each of the four values is a mode.
    match mode {
        0 => by13(m, p),
        1 => by16(m, p),
        _ => by8(m, p),
    }
}

// A timer's pair after m cycles, counting or not.
#[tactic(auto, using(crate::proofs::Laws::left_below), unfolding(strides::specs::Stride::moved, machine::specs::Counting::hold))]
fn moved(m: u64, counts: bool, mode: u8, p: Pair) -> Count
    requires { m ≤ Stride.room_of counts (Stride.left_in mode p.tl p.th) }
    ensures { result ≡ Stride.moved m counts mode p.tl p.th }
{
    if counts {
        moved_in(m as u16, mode, p)
    } else {
        Count {
            tl: p.tl,
            th: p.th,
            overflow: 0,
        }
    }
}

// TH0 after m cycles, where its pair has th: in mode 3 it has a count of its own.
fn moved_high0(m: u64, t: Timers, th: u8) -> u8
    requires { m ≤ Stride.room_of (Step.counts_high0 t) (Stride.left 8 t.th0) }
    ensures { result ≡ (if Step.counts_high0 t then t.th0 + m else th) }
{
    if timers::counts_high0(t) {
        t.th0 + (m as u8)
    } else {
        th
    }
}

// Timers 0 and 1 after m quiet cycles.
#[tactic(auto, unfolding(strides::specs::Stride::stride_timers, strides::specs::Stride::room_timers))]
fn stride_timers(m: u64, l: u8, t: Timers) -> Timers
    requires { m ≤ Stride.room_timers l t }
    ensures { result ≡ Stride.stride_timers m l t }
{
    let pair0 = Pair {
        tl: t.tl0,
        th: t.th0,
    };
    let pair1 = Pair {
        tl: t.tl1,
        th: t.th1,
    };
    let low = moved(m, timers::counts0(t, l), timers::timer0_mode(t), pair0);
    let one = moved(m, quiet::moves1(t, l), timers::timer1_mode(t), pair1);
    Timers {
        tl0: low.tl,
        tl1: one.tl,
        th0: moved_high0(m, t, low.th),
        th1: one.th,
        ..t
    }
}

// Timer 2 after m quiet cycles: six counts a cycle with RCLK or TCLK set.
#[tactic(auto, using(crate::proofs::Laws::left2_below, crate::proofs::Laws::each_fits, crate::proofs::Laws::each_counts, crate::proofs::Laws::no_counts), unfolding(strides::specs::Stride::stride2))]
fn stride2(m: u64, t: Timer2) -> Timer2
    requires { m ≤ Stride.room2 t }
    ensures { result ≡ Stride.stride2 m t }
{
    if quiet::moves2(t) {
        let each = laws::picked(timer2::baud_rate(t), 6, 1);
        let pair2 = Pair {
            tl: t.tl2,
            th: t.th2,
        };
        let n = by16((m as u16) * each, pair2);
        Timer2 {
            tl2: n.tl,
            th2: n.th,
            ..t
        }
    } else {
        t
    }
}

// The ticks of m cycles at rest, but for laps of the send counter: those of serial mode 2.
#[tactic(auto, using(laws::proofs::Bits::bits, crate::proofs::Laws::mode2_below), unfolding(strides::specs::Stride::ticks2))]
fn ticks2(m: u64, smod: u8, scon: u8) -> u8
    ensures { result ≡ Stride.ticks2 (m % 16) smod scon }
{
    let n = (m & 15) as u8;
    laws::picked(ticks::mode_of(scon) == 2, n * ticks::mode2_ticks(smod), 0)
}

// The serial port after m quiet cycles: the send counter takes the ticks, and the last line sample RXD.
#[tactic(auto, using(laws::proofs::Bits::bits, crate::proofs::Laws::ticks_below, crate::proofs::Laws::ticks_laps), unfolding(strides::specs::Stride::stride_serial, strides::specs::Stride::sampled))]
fn stride_serial(m: u64, smod: u8, rxd: u8, s: Serial) -> Serial
    ensures { result ≡ Stride.stride_serial m smod rxd s }
{
    let counter = ((s.send.counter & 15) + ticks2(m, smod, s.scon)) & 15;
    let ticking = (ticks::mode_of(s.scon) == 2) & !(m == 0);
    let sample = laws::picked(ticking, rxd, s.receive.sample);
    Serial {
        send: Sender { counter, ..s.send },
        receive: Receiver {
            sample,
            ..s.receive
        },
        ..s
    }
}

// The device after m cycles of its quiet run: in power-down as it is.
#[tactic(auto, using(laws::proofs::Bits::bits, strides::proofs::Strides::room_timers_lem, strides::proofs::Strides::room_timer2), unfolding(strides::specs::Stride::room_at, strides::specs::Stride::stride_at, strides::specs::Stride::awake_stride))]
pub fn stride(d: Device, l: u8, m: u64) -> Device
    requires { m ≤ Stride.room_at l d }
    ensures { result ≡ Stride.stride_at m l d }
{
    if laws::powered_down(d.pcon) {
        return d;
    }
    Device {
        timers: stride_timers(m, l, d.timers),
        timer2: stride2(m, d.timer2),
        serial: stride_serial(m, (d.pcon >> SMOD) & 1, (l >> RXD) & 1, d.serial),
        cycle: d.cycle.wrapping_add(m),
        ..d
    }
}
