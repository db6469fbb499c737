// The serial port: sending, step 5 of a machine cycle, and the writes to SBUF and SCON.
#![tactic(auto)]

ghost use Rattle.std.specs.Prelude.{◌≡◌, ◌≤◌};
ghost use Rattle.std.specs.Int.{from_bool};
ghost use Rattle.machine.specs.Record.{last_position};
ghost use Rattle.machine.specs.Serial as S;
ghost use Rattle.laws.specs.Ranges.{SerialOk, TicksOk};
ghost use Rattle.serial.specs.Rest as Rest;

use laws::picked;
use machine::places::{REN, RI, TB8, TI};
use machine::{Sender, Serial, Ticks};
use receiver::{receive_shift, receive_ticks};
use ticks::mode_of;

// Writes

// SBUF: the byte and TB8 are the send value, and sending is asked.
#[tactic(auto, using(laws::proofs::Bits::low1, laws::proofs::Bits::join), unfolding(machine::specs::Serial::write_sbuf))]
pub fn write_sbuf(v: u8, s: Serial) -> Serial
    ensures { result ≡ S.write_sbuf v s }
{
    let tb8 = (s.scon >> TB8) & 1;
    Serial {
        send: Sender {
            position: 1,
            value: ((tb8 as u16) << 8) | (v as u16),
            ..s.send
        },
        ..s
    }
}

// SCON: another mode rests both positions; then mode 0 with REN = 1, RI = 0 and nothing being received asks to receive.
#[tactic(auto, using(laws::proofs::Bits::low1), unfolding(machine::specs::Serial::write_scon, machine::specs::Serial::receive_asked))]
pub fn write_scon(v: u8, s: Serial) -> Serial
    ensures { result ≡ S.write_scon v s }
{
    let mode = mode_of(v);
    let mut t = s;
    t.scon = v;
    if mode != mode_of(s.scon) {
        t.send.position = 0;
        t.receive.position = 0;
    }
    let asked = ((mode == 0) & (((v >> REN) & 1) == 1))
        & ((((v >> RI) & 1) == 0) & (t.receive.position == 0));
    if asked {
        t.receive.position = 1;
    }
    t
}

// Sending

// The last position of a mode: 11 in modes 2 and 3.
fn last_position(scon: u8) -> u8
    ensures { result ≡ last_position scon }
{
    picked(mode_of(scon) >= 2, 11, 10)
}

// The position moves on; after the last it rests, and TI is set. That it is at most 11 is asked for: the record is C's.
#[tactic(auto, using(crate::proofs::Sending::ti_set), unfolding(machine::specs::Serial::send_move))]
fn send_move(s: Serial) -> Serial
    requires { s.send.position ≤ 11 }
    ensures { result ≡ S.send_move s }
{
    let mut t = s;
    let p = s.send.position;
    if p == 0 {
        return t;
    }
    if p == last_position(s.scon) {
        t.scon |= 1 << TI;
        t.send.position = 0;
        return t;
    }
    t.send.position += 1;
    t
}

// At most 16 ticks roll the send counter over at most once.
#[tactic(auto, using(crate::proofs::Sending::ticks_count, crate::proofs::Sending::ticks_move, laws::proofs::Bits::low4))]
fn send_ticks(n: u8, s: Serial) -> Serial
    requires n_bound { n ≤ 16 }
    requires counter_bound { s.send.counter ≤ 15 }
    requires position_bound { s.send.position ≤ 11 }
    ensures { result ≡ S.send_ticks n s }
{
    let counted = s.send.counter + n;
    let mut t = s;
    t.send.counter = counted & 15;
    if counted >= 16 { send_move(t) } else { t }
}

// The output line.
#[tactic(auto, using(laws::proofs::Bits::and_one, laws::proofs::Bits::bit_below), unfolding(machine::specs::Serial::line_of))]
pub fn line_of(s: Serial) -> u8
    requires { s.send.position ≤ 11 }
    ensures { result ≡ S.line_of s }
{
    let p = s.send.position;
    if p >= 3 {
        ((s.send.value >> (p - 3)) & 1) as u8
    } else {
        picked((p == 2) & (mode_of(s.scon) != 0), 0, 1)
    }
}

// Nothing is under way in mode 0, or no tick comes in the others.
fn idles(k: Ticks, s: Serial) -> bool
    ensures { result ≡ Rest.idles k s }
{
    ((k.send == 0) & (k.receive == 0))
        & ((mode_of(s.scon) != 0) | ((s.send.position == 0) & (s.receive.position == 0)))
}

// Step 5: send, then receive, in mode 0 by the cycle and in the others by ticks. The ranges are asked for here and in the receiver: the
// record is C's, and its type has none.
#[tactic(auto, using(crate::proofs::Quiet::rest_idles, crate::proofs::Ranges::sends_below, crate::proofs::Ranges::sent_ok, crate::proofs::Ranges::sent_mode, crate::proofs::Ranges::step_shift, crate::proofs::Ranges::step_ticks))]
pub fn serial_step(k: Ticks, rxd: bool, s: Serial) -> Serial
    requires ticks_ok { TicksOk k }
    requires serial_ok { SerialOk s }
    ensures { result ≡ S.serial_step k (from_bool rxd) s }
{
    let t = Serial { half: k.half, ..s };
    if idles(k, s) {
        return t;
    }
    if mode_of(s.scon) == 0 {
        receive_shift(rxd, send_move(t))
    } else {
        receive_ticks(k.receive, rxd, send_ticks(k.send, t))
    }
}
