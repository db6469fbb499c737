// Whole lists of calls: `replay` runs a script through the public calls, each call on the device as the one before left it.
// A script is rows of words, and so are its answers: specs/Script.antt says what they spell, and specs/Demand3.antt states demand 3.
#![tactic(auto)]

ghost use Rattle.std.specs.Prelude.{◌≡◌, ◌/◌, min};
ghost use Rattle.calls.specs.Row.{answer_words};
ghost use Rattle.machine.specs.Lists.Start.{from_reset, from_file};
ghost use Rattle.lists.specs.Script.{script, call_words, Replayed, ReplayedFrom};

use calls::ANSWER_WORDS;
use machine::Device;

// The words of a call: its number and two arguments.
pub const CALL_WORDS: usize = 3;

// The calls that both slices have whole rows for.
fn rows_of(calls: usize, answers: usize) -> usize
    ensures { result ≡ min (calls / call_words) (answers / answer_words) }
{
    (calls / CALL_WORDS).min(answers / ANSWER_WORDS)
}

// A whole script from any device. What lies past its answers stays.
pub fn replay(d: Device, calls: &[u64], lent: &[u32], answers: &mut [u64]) -> Device
    ensures { Replayed d (script calls.now lent.now) answers.old result answers.new }
{
    let mut at = d;
    for i in 0..rows_of(calls.len(), answers.len()) {
        let from = i * CALL_WORDS;
        let row = calls::play_one(&mut at, calls[from], calls[from + 1], calls[from + 2], lent);
        let to = i * ANSWER_WORDS;
        answers[to..to + ANSWER_WORDS].copy_from_slice(&row);
    }
    at
}

// A whole script from what reset gives a kind.
pub fn replay_from_reset(kind: u8, calls: &[u64], lent: &[u32], answers: &mut [u64]) -> Device
    ensures { ReplayedFrom (from_reset kind) (script calls.now lent.now) answers.old result answers.new }
{
    let mut d = record::zeros();
    let _ = c51_access::reset(&mut d, kind);
    replay(d, calls, lent, answers)
}

// A whole script from the device of a file; a refused file gives the kind 0 record.
pub fn replay_from_file(file: &[u8], calls: &[u64], lent: &[u32], answers: &mut [u64]) -> Device
    ensures { ReplayedFrom (from_file file.now) (script calls.now lent.now) answers.old result answers.new }
{
    let mut d = record::zeros();
    let _ = c51_checkpoint::load(&mut d, file);
    replay(d, calls, lent, answers)
}
