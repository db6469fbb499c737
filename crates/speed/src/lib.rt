// The speed finder: from a wanted speed to SMOD and TH1 of Timer 1, by comparing the 512 pairs as fractions of whole numbers.
#![tactic(auto)]

ghost use Rattle.std.specs.Prelude.{◌≡◌, ◌<◌, ◌≤◌, Ok};
ghost use Rattle.baud.specs.Answers.{speed_answered};
ghost use Rattle.baud.specs.Speed as Wanted;
ghost use Rattle.speed.specs.Chosen.{Allowed};
ghost use Rattle.speed.specs.Nearest.{Sized, FirstNearest};

use baud::{Fraction, Pair, Setting};
use machine::refusals::Refusal;

const PAIRS: u64 = 512;

// What is asked for: a crystal in hertz, a rate in bits a second and a tolerance in hundredths of a percent, within their limits.
#[derive(Clone, Copy)]
struct Request {
    crystal: u64,
    rate: u64,
    tolerance: u64,
    ghost limits: { Allowed crystal rate tolerance },
}

// Are the three numbers within their limits?
#[tactic(auto, unfolding(baud::specs::Speed::allowed))]
fn allowed(crystal: u64, rate: u64, tolerance: u64) -> bool
    ensures { result ≡ Wanted.allowed crystal rate tolerance }
{
    (1..=40_000_000).contains(&crystal) && (1..=1_000_000).contains(&rate) && tolerance <= 10_000
}

// Is the first fraction at most the second?
#[tactic(auto, unfolding(baud::specs::Speed::at_most))]
fn at_most(f: Fraction, g: Fraction) -> bool
    requires { Sized f × Sized g }
    ensures { result ≡ Wanted.at_most f g }
{
    f.numerator * g.denominator <= g.numerator * f.denominator
}

// The pairs in the order of preference: SMOD 0 first, then the larger TH1.
#[tactic(auto, unfolding(baud::specs::Speed::pair_at))]
fn pair_at(n: u64) -> Pair
    requires { n < Wanted.PAIRS }
    ensures is { result ≡ Wanted.pair_at n }
    ensures smod { result.smod ≤ 1 }
{
    Pair {
        smod: (n / 256) as u8,
        th1: (255 - n % 256) as u8,
    }
}

// A rate in whole bits a second, cut downward.
#[tactic(auto, unfolding(baud::specs::Speed::cut_down))]
fn cut_down(f: Fraction) -> u64
    requires { 1 ≤ f.denominator }
    ensures { result ≡ Wanted.cut_down f }
{
    f.numerator / f.denominator
}

impl Request {
    // The rate of a pair. A pair is a record of the definitions, so its SMOD has no range in its type.
    #[tactic(auto, unfolding(baud::specs::Speed::rate_of))]
    fn rate_of(self, p: Pair) -> Fraction
        requires { p.smod ≤ 1 }
        ensures { result ≡ Wanted.rate_of self.crystal p }
    {
        Fraction {
            numerator: if p.smod == 0 {
                self.crystal
            } else {
                2 * self.crystal
            },
            denominator: 384 * (256 - p.th1 as u64),
        }
    }

    // How far the rate of a pair lies from the wanted one.
    #[tactic(auto, unfolding(baud::specs::Speed::away))]
    fn away(self, p: Pair) -> Fraction
        requires { p.smod ≤ 1 }
        ensures { result ≡ Wanted.away self.crystal self.rate p }
    {
        let f = self.rate_of(p);
        Fraction {
            numerator: f.numerator.abs_diff(self.rate * f.denominator),
            denominator: f.denominator,
        }
    }

    // Is the rate of a pair within the tolerance of the wanted one?
    #[tactic(auto, unfolding(baud::specs::Speed::within))]
    fn within(self, p: Pair) -> bool
        requires { p.smod ≤ 1 }
        ensures { result ≡ Wanted.within self.crystal self.rate self.tolerance p }
    {
        let most = Fraction {
            numerator: self.rate * self.tolerance,
            denominator: 10_000,
        };
        at_most(self.away(p), most)
    }

    // Is the first pair nearer to the wanted rate than the second?
    #[tactic(auto, unfolding(baud::specs::Speed::nearer, baud::specs::Speed::as_near))]
    fn nearer(self, p: Pair, q: Pair) -> bool
        requires { (p.smod ≤ 1) × (q.smod ≤ 1) }
        ensures { result ≡ Wanted.nearer self.crystal self.rate p q }
    {
        !at_most(self.away(q), self.away(p))
    }

    // The place of the nearest pair, the first of those that are equally near.
    #[tactic(auto, using(crate::proofs::Nearest::taken, crate::proofs::Nearest::kept))]
    fn nearest_place(self) -> u64
        ensures { FirstNearest self.crystal self.rate Wanted.PAIRS result }
    {
        let mut best = 0;
        for n in 1..PAIRS {
            if self.nearer(pair_at(n), pair_at(best)) {
                best = n;
            }
        }
        best
    }

    // The nearest pair, if it is within the tolerance.
    fn search(self) -> Option<Setting>
        ensures { speed_answered (Ok result) ≡ Wanted.search self.crystal self.rate self.tolerance }
    {
        let p = pair_at(self.nearest_place());
        if !self.within(p) {
            return None;
        }
        Some(Setting {
            smod: p.smod,
            th1: p.th1,
            achieved: cut_down(self.rate_of(p)),
        })
    }
}

// SMOD and TH1 for a crystal in hertz and a rate in bits a second, within a tolerance in hundredths of a percent.
#[tactic(auto, unfolding(baud::specs::Speed::speed))]
pub fn speed(crystal: u64, rate: u64, tolerance: u64) -> Result<Option<Setting>, Refusal>
    ensures { speed_answered result ≡ Wanted.speed crystal rate tolerance }
{
    if !allowed(crystal, rate, tolerance) {
        return Err(Refusal::BadSpeed);
    }
    let request = Request {
        crystal,
        rate,
        tolerance,
    };
    Ok(request.search())
}
