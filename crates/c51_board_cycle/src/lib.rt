// For C: a cycle of the board over a board that is lent by reference and altered there, thin over `board::cycle`; nothing is asked of the
// records. An export by itself, so that the compiler makes one function of it and all that it calls.
#![tactic(auto)]

ghost use Rattle.std.specs.Prelude.{◌≡◌};
ghost use Rattle.board.specs.Board as Both;

use board::Board;

// The code of a board's cycle, the output line and the outputs of the 82C53. C has no Result: 0 or the number, and zeros.
#[repr(C)]
#[derive(Clone, Copy)]
pub struct BoardAnswer {
    pub code: u8,
    pub line: u8,
    pub outputs: u8,
}

// A cycle of the chip and a pulse of the 82C53: 1, 4.
#[unsafe(no_mangle)]
pub extern "C" fn c51_board_cycle(b: &mut Board, pins: u8, gates: u8) -> BoardAnswer
    ensures { (result.code ≡ (Both.cycle_answer b.old pins gates).code) × ((result.line ≡ (Both.cycle_answer b.old pins gates).line) × ((result.outputs ≡ (Both.cycle_answer b.old pins gates).outputs) × (b.new ≡ (Both.cycle_answer b.old pins gates).board))) }
{
    match board::cycle(b, pins, gates) {
        Ok(cycled) => BoardAnswer {
            code: 0,
            line: cycled.line,
            outputs: cycled.outputs,
        },
        Err(e) => BoardAnswer {
            code: e.number(),
            line: 0,
            outputs: 0,
        },
    }
}
