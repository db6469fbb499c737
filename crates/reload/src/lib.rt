// Timer 1 alone counts in a settled device, in mode 2, and its overflow raises no flag: whether it is so, one reload, and
// n cycles by rounds. `l` is the pin byte as the kind takes it.
#![tactic(auto)]

ghost use Rattle.std.specs.Prelude.{◌≡◌, ◌+◌, ◌≤◌};
ghost use Rattle.strides.specs.Stride.{settled_at};
ghost use Rattle.reload.specs.Reload as Reload;

pub mod lap;

use lap::Lap;
use laws::picked;
use machine::places::{RCLK, RXD, SMOD, TCLK, TF1, TR2};
use machine::{Device, Receiver, Sender, Serial, Timers, Totals};

// Timer 1 alone counts, in mode 2, and its overflow raises no flag.
#[tactic(auto, using(laws::proofs::Bits::bits), unfolding(crate::specs::Reload::timer1_alone))]
fn timer1_alone(l: u8, t: Timers) -> bool
    ensures { result ≡ Reload.timer1_alone l t }
{
    let one = timers::counts1(t, l) & (timers::timer1_mode(t) == 2);
    let set = (((t.tcon >> TF1) & 1) == 1) | (timers::timer0_mode(t) == 3);
    (one & set) & !(timers::counts0(t, l) | timers::counts_high0(t))
}

// No ticks but those of overflows, and none of them finds a start bit.
#[tactic(auto, unfolding(crate::specs::Reload::line_rests))]
fn line_rests(rxd: u8, s: Serial) -> bool
    ensures { result ≡ Reload.line_rests rxd s }
{
    !(ticks::mode_of(s.scon) == 2) & !receiver::start_found(rxd, s)
}

// In a settled device Timer 1's reload is all that happens, Timer 2 not running. Whether it is settled, the caller has asked.
#[tactic(auto, using(laws::proofs::Bits::bits), unfolding(crate::specs::Reload::idles_at, crate::specs::Reload::reload_only))]
pub fn idles(d: Device, l: u8, settled: bool) -> bool
    requires { settled ≡ settled_at l d }
    ensures { result ≡ Reload.idles_at l d }
{
    if !settled {
        return false;
    }
    let t = d.timers;
    if !timer1_alone(l, t) {
        return false;
    }
    let s = d.serial;
    let stops = ((d.timer2.t2con >> TR2) & 1) == 0;
    stops & line_rests((l >> RXD) & 1, s)
}

// What a reload goes by: SMOD, RXD, and whether Timer 1 clocks the sender and the receiver.
#[derive(Clone, Copy)]
pub struct Clocking {
    pub smod: u8,
    pub rxd: u8,
    pub sends: bool,
    pub receives: bool,
}

// Timer 1's overflows clock a direction, whose clock bit is handed in.
#[tactic(auto, unfolding(crate::specs::Reload::clocks))]
fn clocks(scon: u8, clock: u8) -> bool
    ensures { result ≡ Reload.clocks scon clock }
{
    !(ticks::mode_of(scon) == 0) & !(clock == 1)
}

#[tactic(auto, using(laws::proofs::Bits::bits), unfolding(crate::specs::Reload::clocking_of))]
fn clocking_of(d: Device, l: u8) -> Clocking
    ensures { result ≡ Reload.clocking_of l d }
{
    let t2con = d.timer2.t2con;
    let scon = d.serial.scon;
    let sends = clocks(scon, (t2con >> TCLK) & 1);
    let receives = clocks(scon, (t2con >> RCLK) & 1);
    Clocking {
        smod: (d.pcon >> SMOD) & 1,
        rxd: (l >> RXD) & 1,
        sends,
        receives,
    }
}

// The counts of TL1 before it reloads.
fn left_of(tl1: u8) -> u64
    ensures { result + tl1 ≡ 255 }
{
    255 - (tl1 as u64)
}

fn lap_of(d: Device) -> Lap
    requires { d.serial.half ≤ 1 }
    ensures { Reload.unwound result ≡ Reload.idling_of d }
{
    Lap {
        room: left_of(d.timers.tl1),
        full: left_of(d.timers.th1),
        half: d.serial.half,
        counter: d.serial.send.counter,
        sample: d.serial.receive.sample,
    }
}

// The reload: a tick with SMOD = 1, and with SMOD = 0 where half is 1; half flips with SMOD = 0. SMOD and half are bits. A tick adds 1 to the
// send counter and takes RXD into the last line sample.
#[tactic(auto, using(laws::proofs::Bits::bits, crate::proofs::Laps::tick_is, crate::proofs::Laps::half_is, crate::proofs::Laps::half_bit), unfolding(crate::specs::Reload::reloaded))]
fn reloaded(k: Clocking, x: Lap) -> Lap
    requires { k.smod ≤ 1 }
    ensures { Reload.unwound result ≡ Reload.reloaded k (Reload.unwound x) }
{
    let tick = x.half | k.smod;
    let half = x.half ^ (k.smod ^ 1);
    let counter = x.counter.wrapping_add(picked(k.sends, tick, 0)) & 15;
    let sample = picked(picked(k.receives, tick, 0) == 0, x.sample, k.rxd);
    Lap {
        room: x.full,
        full: x.full,
        half,
        counter,
        sample,
    }
}

// The device with another cycle number and with these.
#[tactic(auto, unfolding(crate::specs::Reload::put_idling))]
fn put_lap(n: u64, x: Lap, d: Device) -> Device
    ensures { result ≡ Reload.put_idling n (Reload.unwound x) d }
{
    let tl1 = (255 - x.room) as u8;
    let th1 = (255 - x.full) as u8;
    Device {
        timers: Timers {
            tl1,
            th1,
            ..d.timers
        },
        serial: Serial {
            send: Sender {
                counter: x.counter,
                ..d.serial.send
            },
            receive: Receiver {
                sample: x.sample,
                ..d.serial.receive
            },
            half: x.half,
            ..d.serial
        },
        cycle: n,
        ..d
    }
}

// A round passes so many cycles.
#[derive(Clone, Copy)]
pub struct LapRound {
    pub used: u64,
    pub lap: Lap,
}

// One round of the cycles that are left: the reload, or the counts of TL1 before it.
fn idle_round(k: Clocking, x: Lap, left: u64) -> LapRound
    requires { (1 ≤ left) × (k.smod ≤ 1) }
    ensures { Reload.Rounded k (Reload.unwound x) left result.used (Reload.unwound result.lap) }
{
    let room = x.room;
    if room == 0 {
        LapRound {
            used: 1,
            lap: reloaded(k, x),
        }
    } else {
        let used = room.min(left);
        LapRound {
            used,
            lap: Lap {
                room: room - used,
                full: x.full,
                half: x.half,
                counter: x.counter,
                sample: x.sample,
            },
        }
    }
}

// Cycles in which Timer 1's reload is all that happens: how many rounds they took, and the device after them.
#[derive(Clone, Copy)]
pub struct Idled {
    pub rounds: u64,
    pub device: Device,
}

// n cycles in which Timer 1's reload is all that happens, by rounds, which are counted.
#[tactic(auto, using(crate::proofs::Laps::smod_bit, crate::proofs::Rounds::going_first))]
pub fn idle(d: Device, l: u8, n: u64) -> Idled
    requires { d.serial.half ≤ 1 }
    ensures { (result.rounds ≡ Reload.idle_rounds n l d) × (result.device ≡ Reload.idle_at n l d) }
{
    let k = clocking_of(d, l);
    let mut x = lap_of(d);
    let mut left = n;
    let mut rounds = 0;
    // No index: a round passes as many cycles as it can.
    while 0 < left {
        let r = idle_round(k, x, left);
        x = r.lap;
        left -= r.used;
        rounds += 1;
    }
    Idled {
        rounds,
        device: put_lap(d.cycle.wrapping_add(n), x, d),
    }
}

// How often the timers overflow in them: Timer 1 as its n counts over the stretch say, and no other.
#[tactic(auto, unfolding(crate::specs::Reload::idle_totals))]
pub fn idle_totals(t: Timers, n: u64) -> Totals
    ensures { result ≡ Reload.idle_totals n t }
{
    let lapped = stretch::counted_over(8, t.th1 as u32, t.tl1 as u32, n);
    Totals {
        timer0: 0,
        timer1: lapped.overflows,
        timer2: 0,
    }
}
