// Timer 2: step 3 of a cycle. Several counts in a cycle are made overflow by overflow, not one by one.
#![tactic(auto)]

ghost use Rattle.std.specs.Prelude.{◌≡◌};
ghost use Rattle.machine.specs.Timer2 as Two;

use laws::{Pair, flagged, picked};
use machine::places::{CPRL2, CT2, EXEN2, EXF2, RCLK, TCLK, TF2, TR2};
use machine::{Counted16, Timer2, Timer2Counted};

// The count.
pub fn count2(t: Timer2) -> u16
    ensures { result ≡ Two.count2 t }
{
    let p = Pair {
        tl: t.tl2,
        th: t.th2,
    };
    p.of16()
}

// The reload value.
fn rcap2(t: Timer2) -> u16
    ensures { result ≡ Two.rcap2 t }
{
    let p = Pair {
        tl: t.rcap2l,
        th: t.rcap2h,
    };
    p.of16()
}

// Timer 2 with another count.
#[tactic(auto, using(laws::proofs::Bits::bits))]
fn with_count2(n: u16, t: Timer2) -> Timer2
    ensures { result ≡ Two.with_count2 n t }
{
    Timer2 {
        tl2: (n & 0xff) as u8,
        th2: (n >> 8) as u8,
        ..t
    }
}

// n counts in turn, each overflow giving the reload value: as long as the sum wraps, those past the overflow are left.
fn count_times(n: u8, reload: u16, from: u16) -> Counted16
    ensures { result ≡ Two.count_times n reload (record { count = from; overflows = 0 }) }
{
    let mut left = n as u16;
    let mut count = from.wrapping_add(left);
    let mut overflows: u8 = 0;
    // No index: it goes on as long as the sum wraps.
    while count < left {
        left = count;
        count = reload.wrapping_add(left);
        overflows += 1;
    }
    Counted16 { count, overflows }
}

// RCLK or TCLK set: Timer 2 is a baud rate generator.
#[tactic(auto, using(laws::proofs::Bits::bits), unfolding(machine::specs::Timer2::baud_rate))]
pub fn baud_rate(t: Timer2) -> bool
    ensures { result ≡ Two.baud_rate t }
{
    (((t.t2con >> RCLK) & 1) == 1) | (((t.t2con >> TCLK) & 1) == 1)
}

// The counts of this cycle: one as a counter on its due mark, as a timer `each`.
#[tactic(auto, using(laws::proofs::Bits::bits, laws::proofs::Bits::from_bool), unfolding(machine::specs::Timer2::counts_of2))]
pub fn counts_of2(each: u8, t: Timer2) -> u8
    ensures { result ≡ Two.counts_of2 each t }
{
    let counted = u8::from(t.due2 == 1);
    picked(((t.t2con >> CT2) & 1) == 0, each, counted)
}

// T2EX falling with EXEN2 = 1.
#[tactic(auto, using(laws::proofs::Bits::bits), unfolding(machine::specs::Timer2::heeds_t2ex))]
fn heeds_t2ex(t: Timer2, fell: u8) -> bool
    ensures { result ≡ Two.heeds_t2ex t fell }
{
    (fell == 1) & (((t.t2con >> EXEN2) & 1) == 1)
}

// Capture, and not auto-reload.
#[tactic(auto, using(laws::proofs::Bits::bits), unfolding(machine::specs::Timer2::captures))]
fn captures(t: Timer2) -> bool
    ensures { result ≡ Two.captures t }
{
    ((t.t2con >> CPRL2) & 1) == 1
}

// The counts of this cycle, in turn.
#[tactic(auto, unfolding(machine::specs::Timer2::counted2))]
fn counted2(each: u8, reload: u16, t: Timer2) -> Counted16
    ensures { result ≡ Two.counted2 each reload t }
{
    count_times(counts_of2(each, t), reload, count2(t))
}

// As a baud rate generator: six counts as a timer, TF2 stays, and T2EX sets EXF2 only.
#[tactic(auto, using(laws::proofs::Bits::from_bool), unfolding(machine::specs::Timer2::baud_step))]
fn baud_step(t: Timer2, fell: u8) -> Timer2Counted
    ensures { result ≡ Two.baud_step t fell }
{
    let s = counted2(6, rcap2(t), t);
    Timer2Counted {
        timer2: Timer2 {
            t2con: flagged(EXF2, u8::from(heeds_t2ex(t, fell)), t.t2con),
            ..with_count2(s.count, t)
        },
        overflows: s.overflows,
        tf2: 0,
    }
}

// T2EX copies the count to RCAP2 (capture) or RCAP2 to the count (auto-reload): either way the two are then equal.
#[tactic(auto, using(crate::proofs::Laws::copied_by_bytes), unfolding(machine::specs::Timer2::copied2))]
fn copied2(t: Timer2) -> Timer2
    ensures { result ≡ Two.copied2 t }
{
    let capture = captures(t);
    let low = picked(capture, t.tl2, t.rcap2l);
    let high = picked(capture, t.th2, t.rcap2h);
    Timer2 {
        rcap2l: low,
        rcap2h: high,
        tl2: low,
        th2: high,
        ..t
    }
}

// As a timer or counter: one count; an overflow sets TF2 and gives 0000 or RCAP2; then T2EX sets EXF2 and copies.
#[tactic(auto, unfolding(machine::specs::Timer2::capture_step))]
fn capture_step(t: Timer2, fell: u8) -> Timer2Counted
    ensures { result ≡ Two.capture_step t fell }
{
    let reload = picked(captures(t), 0, rcap2(t));
    let s = counted2(1, reload, t);
    let mut u = with_count2(s.count, t);
    u.t2con = flagged(TF2, s.overflows, t.t2con);
    if heeds_t2ex(t, fell) {
        u.t2con |= 1 << EXF2;
        u = copied2(u);
    }
    Timer2Counted {
        timer2: u,
        overflows: s.overflows,
        tf2: s.overflows,
    }
}

// Step 3: Timer 2, if TR2 = 1; otherwise it neither counts nor heeds T2EX.
#[tactic(auto, using(laws::proofs::Bits::bits), unfolding(machine::specs::Timer2::timer2_step))]
pub fn timer2_step(t: Timer2, fell: u8) -> Timer2Counted
    ensures { result ≡ Two.timer2_step t fell }
{
    if ((t.t2con >> TR2) & 1) == 1 {
        if baud_rate(t) {
            baud_step(t, fell)
        } else {
            capture_step(t, fell)
        }
    } else {
        Timer2Counted {
            timer2: t,
            overflows: 0,
            tf2: 0,
        }
    }
}
