// Step 2 of a cycle: Timers 0 and 1.
#![tactic(auto)]

ghost use Rattle.std.specs.Prelude.{◌≡◌};
ghost use Rattle.machine.specs.Timers as Step;

use laws::{Pair, flagged, picked};
use machine::places::{CT0, CT1, GATE0, GATE1, INT0, INT1, MODE0, MODE1, TF0, TF1, TR0, TR1};
use machine::{Count, Timers, TimersCounted};

// TRi = 1 and (GATE = 0 or the level of INTi = 1).
#[tactic(auto, unfolding(machine::specs::Timers::enabled))]
pub fn enabled(run: u8, gate: u8, level: u8) -> bool
    ensures { result ≡ Step.enabled run gate level }
{
    (run == 1) & ((gate == 0) | (level == 1))
}

// As a timer in every cycle, as a counter on its due mark.
#[tactic(auto, unfolding(machine::specs::Timers::clocked))]
pub fn clocked(counter: u8, due: u8) -> bool
    ensures { result ≡ Step.clocked counter due }
{
    (counter == 0) | (due == 1)
}

// Timer 0's mode.
#[tactic(auto, using(laws::proofs::Bits::bits))]
pub fn timer0_mode(t: Timers) -> u8
    ensures { result ≡ Step.timer0_mode t }
{
    (t.tmod >> MODE0) & 3
}

// Timer 1's mode.
#[tactic(auto, using(laws::proofs::Bits::bits))]
pub fn timer1_mode(t: Timers) -> u8
    ensures { result ≡ Step.timer1_mode t }
{
    (t.tmod >> MODE1) & 3
}

// Timer 0 counts in this cycle.
#[tactic(auto, using(laws::proofs::Bits::bits), unfolding(machine::specs::Timers::counts0))]
pub fn counts0(t: Timers, pins: u8) -> bool
    ensures { result ≡ Step.counts0 t pins }
{
    enabled(
        (t.tcon >> TR0) & 1,
        (t.tmod >> GATE0) & 1,
        (pins >> INT0) & 1,
    ) & clocked((t.tmod >> CT0) & 1, t.due0)
}

// Timer 1 counts in this cycle: with Timer 0 in mode 3 it is always enabled.
#[tactic(auto, using(laws::proofs::Bits::bits), unfolding(machine::specs::Timers::counts1))]
pub fn counts1(t: Timers, pins: u8) -> bool
    ensures { result ≡ Step.counts1 t pins }
{
    ((timer0_mode(t) == 3)
        | enabled(
            (t.tcon >> TR1) & 1,
            (t.tmod >> GATE1) & 1,
            (pins >> INT1) & 1,
        ))
        & clocked((t.tmod >> CT1) & 1, t.due1)
}

// TH0 in mode 3 counts cycles while TR1 = 1.
#[tactic(auto, using(laws::proofs::Bits::bits), unfolding(machine::specs::Timers::counts_high0))]
pub fn counts_high0(t: Timers) -> bool
    ensures { result ≡ Step.counts_high0 t }
{
    (timer0_mode(t) == 3) & (((t.tcon >> TR1) & 1) == 1)
}

// Timer 0's pair after this cycle's count; in mode 3 TL0 is 8 bits.
#[tactic(auto, unfolding(machine::specs::Timers::pair0))]
fn pair0(t: Timers, pins: u8) -> Count
    ensures { result ≡ Step.pair0 t pins }
{
    let p = Pair {
        tl: t.tl0,
        th: t.th0,
    };
    counting::pair_after(counts0(t, pins), timer0_mode(t), counting::count8(p), p)
}

// TH0 after its own count in mode 3.
#[tactic(auto, unfolding(machine::specs::Timers::high0))]
fn high0(t: Timers, th: u8) -> u8
    ensures { result ≡ Step.high0 t th }
{
    picked(counts_high0(t), th.wrapping_add(1), th)
}

// 1 where that count overflows.
#[tactic(auto, unfolding(machine::specs::Timers::high_overflow0))]
fn high_overflow0(t: Timers, th: u8) -> u8
    ensures { result ≡ Step.high_overflow0 t th }
{
    picked(counts_high0(t), counting::overflow8(th), 0)
}

// Timer 1's pair after this cycle's count; in mode 3 it holds. The machine has a definition for each of the two.
#[tactic(auto, unfolding(machine::specs::Timers::pair1))]
fn pair1(t: Timers, pins: u8) -> Count
    ensures { result ≡ Step.pair1 t pins }
{
    let p = Pair {
        tl: t.tl1,
        th: t.th1,
    };
    counting::pair_after(counts1(t, pins), timer1_mode(t), counting::hold(p), p)
}

// TCON after the overflows of Timer 0, of TH0 in mode 3 and of Timer 1; with Timer 0 in mode 3 Timer 1 sets no flag.
#[tactic(auto, unfolding(machine::specs::Timers::timer_flags))]
fn timer_flags(t: Timers, low: u8, high: u8, one: u8) -> u8
    ensures { result ≡ Step.timer_flags t low high one }
{
    let over = picked(timer0_mode(t) == 3, high, one);
    flagged(TF1, over, flagged(TF0, low, t.tcon))
}

// Step 2, with the three overflows; Timer 1's clocks the serial port.
#[tactic(auto, unfolding(machine::specs::Timers::timers_step))]
pub fn timers_step(t: Timers, pins: u8) -> TimersCounted
    ensures { result ≡ Step.timers_step t pins }
{
    let low = pair0(t, pins);
    let high = high_overflow0(t, low.th);
    let one = pair1(t, pins);
    TimersCounted {
        timers: Timers {
            tcon: timer_flags(t, low.overflow, high, one.overflow),
            tl0: low.tl,
            tl1: one.tl,
            th0: high0(t, low.th),
            th1: one.th,
            ..t
        },
        overflow0: low.overflow,
        overflow_th0: high,
        overflow1: one.overflow,
    }
}
