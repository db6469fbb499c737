// The receiver of the serial port: a tick in modes 1 to 3, and a cycle in mode 0.
#![tactic(auto)]

ghost use Rattle.std.specs.Prelude.{◌≡◌, ◌%◌, ◌<◌, ◌≤◌, ◌≢◌};
ghost use Rattle.std.specs.Int.{from_bool};
ghost use Rattle.machine.specs.Bits.{put_bit};
ghost use Rattle.machine.specs.Record.{serial_mode};
ghost use Rattle.machine.specs.Serial as S;
ghost use Rattle.laws.specs.Ranges.{SerialOk};

use laws::picked;
use machine::places::{RB8, REN, RI, SM2};
use machine::{Receiver, Serial};
use ticks::mode_of;

// A start bit: the line falls with REN = 1.
#[tactic(auto, using(laws::proofs::Bits::low1), unfolding(machine::specs::Serial::start_found))]
pub fn start_found(rxd: u8, s: Serial) -> bool
    ensures { result ≡ S.start_found rxd s }
{
    (((s.scon >> REN) & 1) == 1) & ((s.receive.sample == 1) & (rxd == 0))
}

// The receive position moved.
fn at_position(position: u8, s: Serial) -> Serial
    ensures { result ≡ S.with_receive (S.receive_at position s.receive) s }
{
    let mut t = s;
    t.receive.position = position;
    t
}

#[tactic(auto, unfolding(machine::specs::Serial::receive_start))]
fn receive_start(rxd: bool, s: Serial) -> Serial
    ensures { result ≡ S.receive_start (from_bool rxd) s }
{
    if !start_found(u8::from(rxd), s) {
        return s;
    }
    Serial {
        receive: Receiver {
            position: 1,
            value: 0,
            counter: 0,
            ..s.receive
        },
        ..s
    }
}

#[tactic(auto, unfolding(machine::specs::Serial::receive_rolled))]
fn receive_rolled(scon: u8, p: u8) -> u8
    requires { p ≤ 11 }
    ensures { result ≡ S.receive_rolled scon p }
{
    picked(((p == 10) & (mode_of(scon) == 1)) | (p == 11), 0, p + 1)
}

#[tactic(auto, using(laws::proofs::Bits::low4), unfolding(machine::specs::Serial::receive_counted))]
fn receive_counted(scon: u8, r: Receiver) -> Receiver
    requires { r.position ≤ 11 }
    ensures { result ≡ S.receive_counted scon r }
{
    let rolled = receive_rolled(scon, r.position);
    let position = picked(r.counter == 15, rolled, r.position);
    let counter = r.counter.wrapping_add(1) & 15;
    Receiver {
        position,
        counter,
        ..r
    }
}

#[tactic(auto, unfolding(machine::specs::Serial::votes_added))]
fn votes_added(votes: u8, rxd: bool) -> u8
    requires { votes ≤ 2 }
    ensures { result ≡ S.votes_added votes (from_bool rxd) }
{
    (votes + u8::from(rxd)).min(2)
}

#[tactic(auto, unfolding(machine::specs::Serial::bit_of))]
fn bit_of(votes: u8, rxd: bool) -> bool
    requires { votes ≤ 2 }
    ensures { from_bool result ≡ S.bit_of votes (from_bool rxd) }
{
    votes + u8::from(rxd) >= 2
}

// A bit of the receive value.
#[tactic(auto, using(crate::proofs::Receiving::value_put))]
fn put_bit(place: u8, b: bool, s: Serial) -> Serial
    requires { place < 8 }
    ensures { result ≡ S.with_receive (S.with_value (put_bit place (from_bool b) s.receive.value) s.receive) s }
{
    let mut t = s;
    t.receive.value = (t.receive.value & !(1 << place)) | (u16::from(b) << place);
    t
}

// SCON, and the received byte: the value's bits 0 to 7.
fn with_received(scon: u8, s: Serial) -> Serial
    ensures { result ≡ S.with_received scon (s.receive.value % 256) s }
{
    let received = (s.receive.value & 0xff) as u8;
    Serial {
        scon,
        received,
        ..s
    }
}

// A whole frame: taken if RI = 0 and (SM2 = 0 or the bit is 1).
#[tactic(auto, using(laws::proofs::Bits::bits, crate::proofs::Receiving::ri_set, crate::proofs::Receiving::is_one, crate::proofs::Receiving::rb8_put), unfolding(machine::specs::Serial::frame_done))]
fn frame_done(b: bool, s: Serial) -> Serial
    ensures { result ≡ S.frame_done (from_bool b) s }
{
    let scon = s.scon;
    if (((scon >> RI) & 1) == 0) & ((((scon >> SM2) & 1) == 0) | b) {
        with_received(((scon & !(1 << RB8)) | (u8::from(b) << RB8)) | (1 << RI), s)
    } else {
        s
    }
}

// What the bit does at each position.
#[tactic(auto, using(crate::proofs::Receiving::is_one, machine::proofs::Rollovers::done_receive), unfolding(machine::specs::Serial::receive_bit))]
fn receive_bit(b: bool, s: Serial) -> Serial
    requires { 1 ≤ s.receive.position }
    ensures { result ≡ S.receive_bit (from_bool b) s }
{
    match s.receive.position {
        1 => if b { at_position(0, s) } else { s },
        p @ 2..=9 => put_bit(p - 2, b, s),
        10 => {
            let done = frame_done(b, s);
            if mode_of(s.scon) == 1 {
                at_position(0, done)
            } else {
                done
            }
        }
        _ => at_position(0, s),
    }
}

// A tick while working.
#[tactic(auto, unfolding(machine::specs::Serial::receive_work, machine::specs::Serial::receive_counted))]
fn receive_work(rxd: bool, s: Serial) -> Serial
    requires le_position { 1 ≤ s.receive.position }
    requires position_bound { s.receive.position ≤ 11 }
    requires votes_bound { s.receive.votes ≤ 2 }
    ensures { result ≡ S.receive_work (from_bool rxd) s }
{
    let r = receive_counted(s.scon, s.receive);
    let votes = match r.counter {
        7 => u8::from(rxd),
        8 => votes_added(r.votes, rxd),
        _ => r.votes,
    };
    let t = Serial {
        receive: Receiver { votes, ..r },
        ..s
    };
    if r.counter == 9 {
        receive_bit(bit_of(votes, rxd), t)
    } else {
        t
    }
}

#[tactic(auto, unfolding(machine::specs::Serial::receive_tick))]
fn receive_tick(rxd: bool, s: Serial) -> Serial
    requires position_bound { s.receive.position ≤ 11 }
    requires votes_bound { s.receive.votes ≤ 2 }
    ensures { result ≡ S.receive_tick (from_bool rxd) s }
{
    let mut t = if s.receive.position == 0 {
        receive_start(rxd, s)
    } else {
        receive_work(rxd, s)
    };
    t.receive.sample = u8::from(rxd);
    t
}

// Ticks in turn, in modes 1 to 3. The ranges are asked for: the record is C's, and its type has none.
#[tactic(auto, using(crate::proofs::Ranges::kept, crate::proofs::Ranges::receive_tick_kept, crate::proofs::Ranges::last_most, crate::proofs::Receiving::bit_below, crate::proofs::Receiving::ticks_left), unfolding(machine::specs::Serial::receive_ticks))]
fn receive_each(n: u8, rxd: bool, s: Serial) -> Serial
    requires scon_nonzero { serial_mode s.scon ≢ 0 }
    requires serial_ok { SerialOk s }
    ensures { result ≡ S.receive_ticks n (from_bool rxd) s }
{
    let mut t = s;
    for _ in 0..n {
        t = receive_tick(rxd, t);
    }
    t
}

// Resting with no start bit, ticks only sample the line.
#[tactic(auto, using(crate::proofs::Quiet::rest_receive_ticks))]
pub fn receive_ticks(n: u8, rxd: bool, s: Serial) -> Serial
    requires scon_nonzero { serial_mode s.scon ≢ 0 }
    requires serial_ok { SerialOk s }
    ensures { result ≡ S.receive_ticks n (from_bool rxd) s }
{
    if (s.receive.position == 0) & !start_found(u8::from(rxd), s) {
        let mut t = s;
        t.receive.sample = picked(n == 0, s.receive.sample, u8::from(rxd));
        return t;
    }
    receive_each(n, rxd, s)
}

// Mode 0.
#[tactic(auto, using(crate::proofs::Receiving::ri_set), unfolding(machine::specs::Serial::receive_shift))]
pub fn receive_shift(rxd: bool, s: Serial) -> Serial
    ensures { result ≡ S.receive_shift (from_bool rxd) s }
{
    match s.receive.position {
        0 => s,
        1 => at_position(2, s),
        p @ 2..=9 => at_position(p + 1, put_bit(p - 2, rxd, s)),
        _ => at_position(0, with_received(s.scon | (1 << RI), s)),
    }
}
