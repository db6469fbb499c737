// For C: a load of a lent file, thin over `c51_checkpoint::load`; nothing is asked of the file. An export by itself, as each call of a
// device is.
#![tactic(auto)]

ghost use Rattle.std.specs.Prelude.{◌≡◌};
ghost use Rattle.machine.specs.Checkpoint as Machine;

use machine::Answer;
use machine::refusals::code_of;

// The device of a checkpoint: 15, 16, 17, and the kind 0 record.
#[unsafe(no_mangle)]
pub extern "C" fn c51_load(file: &[u8]) -> Answer
    ensures { result ≡ Machine.load_answer file.now }
{
    let mut device = record::zeros();
    let code = code_of(c51_checkpoint::load(&mut device, file));
    Answer { code, device }
}
