// The board that has both chips: a cycle of the chip with a pulse of the 82C53, and n of both at once. Both are public calls; each
// judges the chips by their own public calls, and the lower number applies.
#![tactic(auto)]

ghost use Rattle.std.specs.Prelude.{◌≡◌};
ghost use Rattle.machine.specs.Outcomes.{number};
ghost use Rattle.board.specs.Board as Plain;
ghost use Rattle.board.specs.Outcomes.{cycle_answered, jump_answered};
ghost use Rattle.board.specs.Joined as Joined;

use interval::Interval;
use machine::refusals::Refusal;
use machine::{Device, Totals};

// The record of both chips.
#[repr(C)]
#[derive(Clone, Copy)]
pub struct Board {
    pub device: Device,
    pub interval: Interval,
}

// What a cycle gives: the output line and the outputs of the 82C53.
#[derive(Clone, Copy)]
pub struct BoardCycled {
    pub line: u8,
    pub outputs: u8,
}

// What a jump gives: the outputs of the 82C53, the chip's overflow totals and its rounds.
#[derive(Clone, Copy)]
pub struct BoardJumped {
    pub outputs: u8,
    pub totals: Totals,
    pub rounds: u64,
}

// Of two refusals the one with the lower number.
fn lower(x: Refusal, y: Refusal) -> Refusal
    ensures { number result ≡ Joined.lower (number x) (number y) }
{
    if x.number() < y.number() { x } else { y }
}

// A cycle of the chip and a pulse of the 82C53, both on a copy, so that a refusal of either leaves both as they were.
pub fn cycle(b: &mut Board, pins: u8, gates: u8) -> Result<BoardCycled, Refusal>
    ensures { cycle_answered result b.new ≡ Plain.cycle_answer b.old pins gates }
{
    let mut next = *b;
    let cycled = c51_run::cycle(&mut next.device, pins);
    let pulsed = c53::pulse(&mut next.interval, gates);
    match (cycled, pulsed) {
        (Ok(line), Ok(outputs)) => {
            *b = next;
            Ok(BoardCycled { line, outputs })
        }
        (Err(e), Ok(_)) => Err(e),
        (Ok(_), Err(f)) => Err(f),
        (Err(e), Err(f)) => Err(lower(e, f)),
    }
}

// n cycles of the chip beside n pulses of the 82C53, each by its own jump. Where the 82C53 refuses, the chip is judged by a jump of
// no cycles.
pub fn jump(b: &mut Board, pins: u8, gates: u8, n: u64) -> Result<BoardJumped, Refusal>
    ensures { jump_answered result b.new ≡ Plain.jump_answer b.old pins gates n }
{
    let mut interval = b.interval;
    match c53::jump(&mut interval, gates, n) {
        Ok(outputs) => {
            let jumped = c51_run::jump(&mut b.device, pins, n)?;
            b.interval = interval;
            Ok(BoardJumped {
                outputs,
                totals: jumped.totals,
                rounds: jumped.rounds,
            })
        }
        Err(e) => {
            let mut device = b.device;
            match c51_run::jump(&mut device, pins, 0) {
                Ok(_) => Err(e),
                Err(f) => Err(lower(f, e)),
            }
        }
    }
}
