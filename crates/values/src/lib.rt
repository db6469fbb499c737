// A device as its values, each at its place, and the device of a kind that has such values. specs/Checkpoint.antt of `machine` says what
// the places are.
#![tactic(auto)]

ghost use Rattle.std.specs.Prelude.{◌≡◌, length};
ghost use Rattle.machine.specs.Checkpoint.{times_listed, values_of, device_with};
ghost use Rattle.values.specs.Values.{timer_values, timer2_values, send_values, receive_values, serial_values, interrupt_values, most_at, cut, narrow};

use machine::{Device, FlagTimes, Interrupts, Receiver, Sender, Serial, Timer2, Timers};
use std::array;

// How many values there are, and the places of the SBUF entry and of the received byte among the hidden fields.
pub const PLACES: usize = 57;

pub const SBUF: usize = 8;

pub const RECEIVED: usize = 25;

// The parts of a device as values.
fn timer_values(t: Timers) -> [u64; 8]
    ensures { result ≡ timer_values t }
{
    [t.tcon, t.tmod, t.tl0, t.tl1, t.th0, t.th1, t.due0, t.due1].map(u64::from)
}

fn timer2_values(t: Timer2) -> [u64; 6]
    ensures { result ≡ timer2_values t }
{
    [t.t2con, t.rcap2l, t.rcap2h, t.tl2, t.th2, t.due2].map(u64::from)
}

fn send_values(u: Sender) -> [u64; 3]
    ensures { result ≡ send_values u }
{
    [
        u64::from(u.position),
        u64::from(u.value),
        u64::from(u.counter),
    ]
}

fn receive_values(x: Receiver) -> [u64; 5]
    ensures { result ≡ receive_values x }
{
    [
        u64::from(x.position),
        u64::from(x.value),
        u64::from(x.counter),
        u64::from(x.votes),
        u64::from(x.sample),
    ]
}

fn serial_values(s: Serial) -> [u64; 3]
    ensures { result ≡ serial_values s }
{
    [s.scon, s.half, s.received].map(u64::from)
}

fn interrupt_values(i: Interrupts) -> [u64; 6]
    ensures { result ≡ interrupt_values i }
{
    [i.ie, i.ip, i.seen, i.polled, i.low, i.high].map(u64::from)
}

fn level_values(l: [u8; 7]) -> [u64; 7]
    ensures { (result ≡ l) × (length result ≡ 7) }
{
    l.map(u64::from)
}

// Of each flag ever, and the number.
fn time_values(e: [u8; 8], n: [u64; 8]) -> [u64; 16]
    ensures { (result ≡ times_listed e n) × (length result ≡ 16) }
{
    let e = e.map(u64::from);
    [
        e[0], n[0], e[1], n[1], e[2], n[2], e[3], n[3], e[4], n[4], e[5], n[5], e[6], n[6], e[7],
        n[7],
    ]
}

// The values of a device, each at its place.
pub fn values_of(d: Device) -> [u64; PLACES]
    ensures { result ≡ values_of d }
{
    let serial = d.serial;
    let levels = d.levels;
    let ever = d.times.ever;
    let number = d.times.number;
    let t = timer_values(d.timers);
    let t2 = timer2_values(d.timer2);
    let u = send_values(serial.send);
    let x = receive_values(serial.receive);
    let s = serial_values(serial);
    let i = interrupt_values(d.interrupts);
    let l = level_values(levels);
    let f = time_values(ever, number);
    [
        u64::from(d.pcon),
        t[0],
        t[1],
        t[2],
        t[3],
        t[4],
        t[5],
        s[0],
        s[2],
        i[0],
        i[1],
        t2[0],
        t2[1],
        t2[2],
        t2[3],
        t2[4],
        u[0],
        u[1],
        u[2],
        x[0],
        x[1],
        x[2],
        x[3],
        x[4],
        s[1],
        s[2],
        t[6],
        t[7],
        t2[5],
        i[2],
        i[3],
        i[4],
        i[5],
        d.cycle,
        l[0],
        l[1],
        l[2],
        l[3],
        l[4],
        l[5],
        l[6],
        f[0],
        f[1],
        f[2],
        f[3],
        f[4],
        f[5],
        f[6],
        f[7],
        f[8],
        f[9],
        f[10],
        f[11],
        f[12],
        f[13],
        f[14],
        f[15],
    ]
}

// The most that the field at a place has room for.
#[tactic(auto, unfolding(crate::specs::Values::most_at))]
fn most_at(place: usize) -> u64
    ensures { result ≡ most_at place }
{
    let wide = (place == RECEIVED) | (place == 33) | ((41 <= place) & (place % 2 == 0));
    laws::picked(
        (place == 17) | (place == 20),
        0xffff,
        laws::picked(wide, 0xffff_ffff_ffff_ffff, 0xff),
    )
}

// Each value has room in its field.
pub fn narrow(v: [u64; PLACES]) -> bool
    ensures { result ≡ narrow v }
{
    v.iter().enumerate().all(|(place, x)| *x <= most_at(place))
}

// The parts of the device that has these values, each cut to its field.
#[tactic(auto, unfolding(machine::specs::Checkpoint::device_with, crate::specs::Values::most_at, crate::specs::Values::cut))]
fn timers_of(v: [u64; PLACES]) -> Timers
    ensures { result ≡ (device_with 0 (cut v)).timers }
{
    Timers {
        tcon: (v[1] % 256) as u8,
        tmod: (v[2] % 256) as u8,
        tl0: (v[3] % 256) as u8,
        tl1: (v[4] % 256) as u8,
        th0: (v[5] % 256) as u8,
        th1: (v[6] % 256) as u8,
        due0: (v[26] % 256) as u8,
        due1: (v[27] % 256) as u8,
    }
}

#[tactic(auto, unfolding(machine::specs::Checkpoint::device_with, crate::specs::Values::most_at, crate::specs::Values::cut))]
fn timer2_of(v: [u64; PLACES]) -> Timer2
    ensures { result ≡ (device_with 0 (cut v)).timer2 }
{
    Timer2 {
        t2con: (v[11] % 256) as u8,
        rcap2l: (v[12] % 256) as u8,
        rcap2h: (v[13] % 256) as u8,
        tl2: (v[14] % 256) as u8,
        th2: (v[15] % 256) as u8,
        due2: (v[28] % 256) as u8,
    }
}

#[tactic(auto, unfolding(machine::specs::Checkpoint::device_with, crate::specs::Values::most_at, crate::specs::Values::cut))]
fn serial_of(v: [u64; PLACES]) -> Serial
    ensures { result ≡ (device_with 0 (cut v)).serial }
{
    Serial {
        scon: (v[7] % 256) as u8,
        send: Sender {
            position: (v[16] % 256) as u8,
            value: (v[17] % 65536) as u16,
            counter: (v[18] % 256) as u8,
        },
        receive: Receiver {
            position: (v[19] % 256) as u8,
            value: (v[20] % 65536) as u16,
            counter: (v[21] % 256) as u8,
            votes: (v[22] % 256) as u8,
            sample: (v[23] % 256) as u8,
        },
        half: (v[24] % 256) as u8,
        received: (v[SBUF] % 256) as u8,
    }
}

#[tactic(auto, unfolding(machine::specs::Checkpoint::device_with, crate::specs::Values::most_at, crate::specs::Values::cut))]
fn interrupts_of(v: [u64; PLACES]) -> Interrupts
    ensures { result ≡ (device_with 0 (cut v)).interrupts }
{
    Interrupts {
        ie: (v[9] % 256) as u8,
        ip: (v[10] % 256) as u8,
        seen: (v[29] % 256) as u8,
        polled: (v[30] % 256) as u8,
        low: (v[31] % 256) as u8,
        high: (v[32] % 256) as u8,
    }
}

#[tactic(auto, unfolding(machine::specs::Checkpoint::device_with, crate::specs::Values::most_at, crate::specs::Values::cut))]
fn levels_of(v: [u64; PLACES]) -> [u8; 7]
    ensures { result ≡ (device_with 0 (cut v)).levels }
{
    array::from_fn(|i| (v[34 + i] % 256) as u8)
}

#[tactic(auto, unfolding(machine::specs::Checkpoint::device_with, crate::specs::Values::most_at, crate::specs::Values::cut))]
fn times_of(v: [u64; PLACES]) -> FlagTimes
    ensures { result ≡ (device_with 0 (cut v)).times }
{
    FlagTimes {
        ever: array::from_fn(|i| (v[41 + 2 * i] % 256) as u8),
        number: array::from_fn(|i| v[42 + 2 * i]),
    }
}

// The device of a kind.
pub fn device_of(kind: u8, v: [u64; PLACES]) -> Device
    ensures { result ≡ device_with kind (cut v) }
{
    Device {
        kind,
        pcon: (v[0] % 256) as u8,
        timers: timers_of(v),
        timer2: timer2_of(v),
        serial: serial_of(v),
        interrupts: interrupts_of(v),
        levels: levels_of(v),
        cycle: v[33],
        times: times_of(v),
    }
}
