// n pulses of one counter of the 82C53 at once, with its gate held: in closed form, whatever n. specs/Jump.antt says how.
#![tactic(auto)]

ghost use Rattle.std.specs.Prelude.{◌≡◌, true, ◌≤◌};
ghost use Rattle.interval.specs.Counter.{pulses};
ghost use Rattle.interval.specs.Interval.{counter_ok};
ghost use Rattle.interval_jump.specs.Jump as Closed;

use interval::Counter;
use interval_counter::{again, counts0, load, most, one_below, stands};
use laws::picked;

// n counts down from c, the largest count being top. Whole laps of top + 1 counts change nothing. The last remainder is taken only of a
// record that is not accepted, whose count is above the largest: a division costs more than all the rest.
fn down_by(top: u16, n: u64, c: u16) -> u16
    ensures { result ≡ Closed.down_by top n c }
{
    let lap = u64::from(top) + 1;
    let gone = n % lap;
    let from = u64::from(c);
    let left = if gone <= from {
        from - gone
    } else {
        from + lap - gone
    };
    let below = if left < lap { left } else { left % lap };
    below as u16
}

// The counts that bring it to 1; one more brings it to 0 in mode 0, and to its reload in mode 2.
#[tactic(auto, unfolding(crate::specs::Jump::left))]
fn left(k: Counter) -> u16
    ensures { result ≡ Closed.left k }
{
    one_below(most(k.bcd), k.count)
}

// n counts of mode 0: the output rises at 0.
#[tactic(auto, unfolding(crate::specs::Jump::after0))]
fn after0(n: u64, k: Counter) -> Counter
    ensures { result ≡ Closed.after0 n k }
{
    stands(
        down_by(most(k.bcd), n, k.count),
        picked(u64::from(left(k)) < n, 1, k.output),
        k,
    )
}

// n counts of mode 2 within a lap: the output falls with the one that brings the count to 1.
#[tactic(auto, unfolding(crate::specs::Jump::within2))]
fn within2(n: u64, k: Counter) -> Counter
    ensures { result ≡ Closed.within2 n k }
{
    stands(
        down_by(most(k.bcd), n, k.count),
        picked(!(n == 0) & (n == u64::from(left(k))), 0, k.output),
        k,
    )
}

// n pulses of mode 2 with the gate high: the first lap up to its reload, whole laps, and what is left over.
#[tactic(auto, unfolding(crate::specs::Jump::after2))]
fn after2(n: u64, k: Counter) -> Counter
    ensures { result ≡ Closed.after2 n k }
{
    let first = u64::from(left(k));
    if n <= first {
        return within2(n, k);
    }
    let reloaded = load(again(k), 1, k);
    let lap = u64::from(left(reloaded)) + 1;
    within2((n - (first + 1)) % lap, reloaded)
}

// n pulses that find the gate as it was: where nothing is to count nothing changes, but that in mode 2 a low gate forces the output high.
#[tactic(auto, unfolding(crate::specs::Jump::steady))]
fn steady(n: u64, gate: u8, k: Counter) -> Counter
    ensures { result ≡ Closed.steady n gate k }
{
    if k.mode == 0 {
        if counts0(gate, k) {
            return after0(n, k);
        }
        return k;
    }
    if !(k.loaded == 1) {
        return k;
    }
    if gate == 1 {
        return after2(n, k);
    }
    stands(k.count, picked(n == 0, k.output, 1), k)
}

// n pulses with one gate level. The first is worked singly: it loads what waits, and sees whether the gate has risen.
#[tactic(auto, using(crate::proofs::Jumps::jump_law, interval::proofs::Ranges::within_of), unfolding(interval::specs::Counter::pulses))]
pub fn jump(n: u64, gate: u8, k: Counter) -> Counter
    requires { (gate ≤ 1) × (counter_ok k ≡ true) }
    ensures { result ≡ pulses n gate k }
{
    if n == 0 {
        return k;
    }
    steady(n - 1, gate, interval_counter::pulse(gate, k))
}
