// Jumps by rounds: a round is one busy cycle, or one stride over the quiet run ahead. Jumps, trace runs and looks go by the
// same rounds. `pins` is the pin byte as the kind takes it.
#![tactic(auto)]

ghost use Rattle.std.specs.Prelude.{◌≡◌, true, ◌⊎◌, ◌≤◌};
ghost use Rattle.machine.specs.Cycle.{cycles};
ghost use Rattle.machine.specs.Totals.{added, totals, Within};
ghost use Rattle.machine.specs.Rounds.{rounds};
ghost use Rattle.machine.specs.Calls.{longest};
ghost use Rattle.totals.specs.Fit.{Low};
ghost use Rattle.strides.specs.Stride.{room_at};
ghost use Rattle.reload.specs.Reload.{idles_at};
ghost use Rattle.jump.specs.Rounds.{Ready, Crossed, Reached};

use cycle::Run;

// What a round passes: how many cycles it has, and the run after them.
#[derive(Clone, Copy)]
pub struct Round {
    pub used: u64,
    pub run: Run,
}

// One round of the cycles that are left: a single cycle where there is no room, since the next is busy, otherwise a stride over
// the quiet run, in which no timer overflows.
pub fn one_round(run: Run, pins: u8, left: u64, room: u64) -> Round
    requires { Ready pins run.device × (1 ≤ left) × (left ≤ longest) × (room ≡ room_at pins run.device) × Low run.totals }
    ensures { Crossed pins left run result }
{
    if room == 0 {
        Round {
            used: 1,
            run: cycle::cycle_once(run, pins),
        }
    } else {
        let used = room.min(left);
        Round {
            used,
            run: Run {
                device: quiet_stride::stride(run.device, pins, used),
                ..run
            },
        }
    }
}

// Cycles in a row by rounds: how many rounds there were, how many cycles are left, and the run so far.
#[derive(Clone, Copy)]
pub struct Gone {
    pub rounds: u64,
    pub left: u64,
    pub run: Run,
}

// n cycles more with one pin byte, round by round, as far as to where Timer 1's reload is all that happens from there on, or to their end.
// What is asked for, here and of looks, is about a run, its pin byte and n together, so no one type can have it.
#[tactic(auto, using(crate::proofs::Reached::reached_low))]
fn rounds_to_idle(from: Run, pins: u8, n: u64) -> Gone
    requires { Ready pins from.device × (n ≤ longest) × Within longest from.totals }
    ensures { Reached pins n from result.run result.left result.rounds × ((result.left ≡ 0) ⊎ (idles_at pins result.run.device ≡ true)) }
{
    let mut run = from;
    let mut left = n;
    let mut rounds = 0;
    // No index: a round passes as many cycles as it can.
    while 0 < left {
        let ahead = quiet::ahead(run.device, pins);
        if reload::idles(run.device, pins, ahead.settled) {
            return Gone { rounds, left, run };
        }
        let r = one_round(run, pins, left, ahead.room);
        run = r.run;
        left -= r.used;
        rounds += 1;
    }
    Gone { rounds, left, run }
}

// Cycles in a row: how many rounds they took, and the run after them.
#[derive(Clone, Copy)]
pub struct Advanced {
    pub rounds: u64,
    pub run: Run,
}

// n cycles more with one pin byte, round by round, by two loops, one after the other. Where Timer 1's reload is all that happens, the
// rounds that are left go by its few fields alone, and its overflows are counted over the whole stretch.
pub fn advance(from: Run, pins: u8, n: u64) -> Advanced
    requires { Ready pins from.device × (n ≤ longest) × Within longest from.totals }
    ensures { (result.rounds ≡ rounds n pins from.device) × (result.run.totals ≡ added from.totals (totals n pins from.device)) × (result.run.device ≡ cycles n pins from.device) }
{
    // In power-down nothing happens, in one round.
    if laws::powered_down(from.device.pcon) {
        return Advanced {
            rounds: u64::from(n != 0),
            run: from,
        };
    }
    let gone = rounds_to_idle(from, pins, n);
    let run = gone.run;
    if gone.left == 0 {
        return Advanced {
            rounds: gone.rounds,
            run,
        };
    }
    let idled = reload::idle(run.device, pins, gone.left);
    let laps = reload::idle_totals(run.device.timers, gone.left);
    Advanced {
        rounds: gone.rounds + idled.rounds,
        run: Run {
            totals: totals::added(run.totals, laps),
            device: idled.device,
        },
    }
}
