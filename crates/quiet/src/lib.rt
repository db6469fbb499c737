// What lies ahead of a device: whether it is settled, and the quiet room, the cycles ahead in which nothing happens but
// counting. `l` is the pin byte as the kind takes it.
#![tactic(auto)]

ghost use Rattle.std.specs.Prelude.{◌≡◌, false};
ghost use Rattle.machine.specs.Power.{powered_down};
ghost use Rattle.machine.specs.Timers as Step;
ghost use Rattle.strides.specs.Stride as Stride;

use laws::Pair;
use machine::places::{CT2, IE0, IE1, INT0, INT1, IT0, IT1, RXD, TR2};
use machine::{Device, Interrupts, LONGEST, Serial, Timer2, Timers};

// No due mark, and IEi of a level-triggered input is 1 - L.
#[tactic(auto, using(laws::proofs::Bits::bits), unfolding(strides::specs::Stride::timers_settled))]
fn settled_timers(l: u8, t: Timers) -> bool
    ensures { result ≡ Stride.timers_settled l t }
{
    let level0 = (((t.tcon >> IT0) & 1) == 1) | (((t.tcon >> IE0) & 1) != ((l >> INT0) & 1));
    let level1 = (((t.tcon >> IT1) & 1) == 1) | (((t.tcon >> IE1) & 1) != ((l >> INT1) & 1));
    ((t.due0 == 0) & (t.due1 == 0)) & (level0 & level1)
}

// Both directions rest, and the next cycle finds no start bit: serial mode 2 ticks in every cycle.
#[tactic(auto, unfolding(strides::specs::Stride::serial_settled))]
fn settled_serial(rxd: u8, s: Serial) -> bool
    ensures { result ≡ Stride.serial_settled rxd s }
{
    let start_next = (ticks::mode_of(s.scon) == 2) & receiver::start_found(rxd, s);
    ((s.send.position == 0) & (s.receive.position == 0)) & !start_next
}

// Seen and polled are the flags.
fn settled_interrupts(now: u8, i: Interrupts) -> bool
    ensures { result ≡ Stride.interrupts_settled now i }
{
    (i.seen == now) & (i.polled == now)
}

// The device, which is not in power-down, is settled: a cycle without overflows finds nothing to do. The serial port is asked first.
#[tactic(auto, using(laws::proofs::Bits::bits, crate::proofs::Same::same_is), unfolding(strides::specs::Stride::settled_at, strides::specs::Stride::others_settled))]
fn settled(d: Device, l: u8) -> bool
    requires { powered_down d.pcon ≡ false }
    ensures { result ≡ Stride.settled_at l d }
{
    let s = d.serial;
    if !settled_serial((l >> RXD) & 1, s) {
        return false;
    }
    let t = d.timers;
    let u = d.timer2;
    let i = d.interrupts;
    let flags = interrupts::seen_of(t.tcon, s.scon, u.t2con);
    let same_levels = d.levels == cycle::levels_of(l);
    (same_levels & settled_timers(l, t)) & ((u.due2 == 0) & settled_interrupts(flags, i))
}

// The counts of a timer's pair before the one that overflows, in its mode: of 13 bits, of 16 bits, or of TL's 8.
#[tactic(auto, unfolding(strides::specs::Stride::left_in))]
fn left_in(mode: u8, p: Pair) -> u16
    ensures { result ≡ Stride.left_in mode p.tl p.th }
{
    // A number: two bits of TMOD, and each of the four values is a mode.
    match mode {
        0 => 0x1fff - p.of13(),
        1 => 0xffff - p.of16(),
        _ => 0xff - (p.tl as u16),
    }
}

// Timer 1 moves in a quiet cycle: in mode 3 it holds.
#[tactic(auto, unfolding(strides::specs::Stride::moves1))]
pub fn moves1(t: Timers, l: u8) -> bool
    ensures { result ≡ Stride.moves1 t l }
{
    timers::counts1(t, l) & !(timers::timer1_mode(t) == 3)
}

// The room of a timer's pair in its mode: of one that does not count a jump's most cycles.
fn room_of(counts: bool, mode: u8, p: Pair) -> u64
    ensures { result ≡ Stride.room_of counts (Stride.left_in mode p.tl p.th) }
{
    if counts {
        left_in(mode, p) as u64
    } else {
        LONGEST
    }
}

// The room of TH0 in mode 3.
fn room_high0(t: Timers) -> u64
    ensures { result ≡ Stride.room_of (Step.counts_high0 t) (Stride.left 8 t.th0) }
{
    if timers::counts_high0(t) {
        0xff - (t.th0 as u64)
    } else {
        LONGEST
    }
}

// The room of Timer 0, of TH0 in mode 3 and of Timer 1.
#[tactic(auto, unfolding(strides::specs::Stride::room_timers))]
fn room_timers(l: u8, t: Timers) -> u64
    ensures { result ≡ Stride.room_timers l t }
{
    let pair0 = Pair {
        tl: t.tl0,
        th: t.th0,
    };
    let pair1 = Pair {
        tl: t.tl1,
        th: t.th1,
    };
    let low = room_of(timers::counts0(t, l), timers::timer0_mode(t), pair0);
    let one = room_of(moves1(t, l), timers::timer1_mode(t), pair1);
    low.min(room_high0(t).min(one))
}

// Timer 2 moves in a quiet cycle: running, as a timer.
#[tactic(auto, using(laws::proofs::Bits::bits), unfolding(strides::specs::Stride::moves2))]
pub fn moves2(t: Timer2) -> bool
    ensures { result ≡ Stride.moves2 t }
{
    (((t.t2con >> TR2) & 1) == 1) & (((t.t2con >> CT2) & 1) == 0)
}

// The cycles of Timer 2 before the one in which it overflows: it counts six times a cycle with RCLK or TCLK set.
#[tactic(auto, unfolding(strides::specs::Stride::left2))]
fn left2(t: Timer2) -> u16
    ensures { result ≡ Stride.left2 t }
{
    let left = 0xffff - timer2::count2(t);
    laws::picked(timer2::baud_rate(t), left / 6, left)
}

// The room of Timer 2.
fn room2(t: Timer2) -> u64
    ensures { result ≡ Stride.room2 t }
{
    if moves2(t) { left2(t) as u64 } else { LONGEST }
}

// What lies ahead of a device: whether it is settled, and the room, the length of the run of cycles from it on in which
// nothing happens but counting, at most a jump's. In power-down nothing happens in any jump; a device is not called settled there, since
// nothing counts.
#[derive(Clone, Copy)]
pub struct Outlook {
    pub settled: bool,
    pub room: u64,
}

#[tactic(auto, unfolding(strides::specs::Stride::room_at, strides::specs::Stride::awake_room, strides::specs::Stride::settled_at, strides::specs::Stride::others_settled))]
pub fn ahead(d: Device, l: u8) -> Outlook
    ensures { (result.settled ≡ Stride.settled_at l d) × (result.room ≡ Stride.room_at l d) }
{
    if laws::powered_down(d.pcon) {
        return Outlook {
            settled: false,
            room: LONGEST,
        };
    }
    if settled(d, l) {
        let t = d.timers;
        let u = d.timer2;
        Outlook {
            settled: true,
            room: room_timers(l, t).min(room2(u)),
        }
    } else {
        Outlook {
            settled: false,
            room: 0,
        }
    }
}
