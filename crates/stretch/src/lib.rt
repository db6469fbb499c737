// Counting one timer over a stretch: a counter of up to 16 bits after m counts, by division. Where no overflow reloads it, the reload
// value is 0.
#![tactic(auto)]

ghost use Rattle.std.specs.Prelude.{◌≡◌, ◌≤◌, ◌<◌, ◌^◌};
ghost use Rattle.stretch.specs.Stretch.{Counter, Lap, lapped};

// The count after them, and the overflows among them.
#[derive(Clone, Copy)]
pub struct Lapped {
    pub count: u32,
    pub overflows: u64,
}

// The counts from n to the next overflow.
fn lap_from(width: u64, n: u32) -> u64
    requires { (width ≤ 16) × (n < 2 ^ width) }
    ensures { Lap width n result }
{
    (1u64 << width) - (n as u64)
}

// m counts of a counter of `width` bits that takes `reload` on each overflow: a first lap from the count, and then laps from there.
pub fn counted_over(width: u64, reload: u32, count: u32, m: u64) -> Lapped
    requires { Counter width reload count }
    ensures { result ≡ lapped m width reload count }
{
    let first = lap_from(width, count);
    if m < first {
        return Lapped {
            count: count + (m as u32),
            overflows: 0,
        };
    }
    let past = m - first;
    let lap = lap_from(width, reload);
    Lapped {
        count: reload + ((past % lap) as u32),
        overflows: 1 + past / lap,
    }
}
