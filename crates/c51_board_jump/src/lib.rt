// For C: a jump of the board over a board that is lent by reference and altered there, thin over `board::jump`; nothing is asked of the
// records. An export by itself, so that the compiler makes one function of it and all that it calls.
#![tactic(auto)]

ghost use Rattle.std.specs.Prelude.{◌≡◌};
ghost use Rattle.board.specs.Board as Both;

use board::Board;
use machine::Totals;

// The code of a board's jump, the outputs of the 82C53, the chip's overflow totals, and its rounds. C has no Result: 0 or the
// number, and zeros.
#[repr(C)]
#[derive(Clone, Copy)]
pub struct BoardJumped {
    pub code: u8,
    pub outputs: u8,
    pub totals: Totals,
    pub rounds: u64,
}

// n cycles of the chip and n pulses of the 82C53: 1, 4, 5.
#[unsafe(no_mangle)]
pub extern "C" fn c51_board_jump(b: &mut Board, pins: u8, gates: u8, n: u64) -> BoardJumped
    ensures { (result.code ≡ (Both.jump_answer b.old pins gates n).code) × ((result.outputs ≡ (Both.jump_answer b.old pins gates n).outputs) × ((result.totals ≡ (Both.jump_answer b.old pins gates n).totals) × ((result.rounds ≡ (Both.jump_answer b.old pins gates n).rounds) × (b.new ≡ (Both.jump_answer b.old pins gates n).board)))) }
{
    match board::jump(b, pins, gates, n) {
        Ok(moved) => BoardJumped {
            code: 0,
            outputs: moved.outputs,
            totals: moved.totals,
            rounds: moved.rounds,
        },
        Err(e) => BoardJumped {
            code: e.number(),
            outputs: 0,
            totals: totals::none(),
            rounds: 0,
        },
    }
}
