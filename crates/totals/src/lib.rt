// Overflow totals: those of one cycle, timer by timer, none, and the sum of two.
#![tactic(auto)]

ghost use Rattle.std.specs.Prelude.{◌≡◌};
ghost use Rattle.machine.specs.Totals as Machine;
ghost use Rattle.totals.specs.Fit.{Fit};

use machine::{Overflows, Totals};

// Three zeros: of no cycles, and of a refused call.
pub fn none() -> Totals
    ensures { result ≡ Machine.no_totals }
{
    Totals {
        timer0: 0,
        timer1: 0,
        timer2: 0,
    }
}

// The overflows of a cycle, timer by timer: TH0 in mode 3 belongs to Timer 0's total.
pub fn by_timer(o: Overflows) -> Totals
    ensures { result ≡ Machine.by_timer o }
{
    Totals {
        timer0: (o.timer0 as u64) + (o.th0 as u64),
        timer1: o.timer1 as u64,
        timer2: o.timer2 as u64,
    }
}

// The sum of two, which fits.
pub fn added(a: Totals, b: Totals) -> Totals
    requires { Fit (Machine.added a b) }
    ensures { result ≡ Machine.added a b }
{
    Totals {
        timer0: a.timer0 + b.timer0,
        timer1: a.timer1 + b.timer1,
        timer2: a.timer2 + b.timer2,
    }
}
