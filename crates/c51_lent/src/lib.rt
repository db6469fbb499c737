// The library for C, but for the chip's calls, each of which is a crate of its own: whole scripts of calls over a device record that is
// lent by reference and altered there; reset; the record check of a record passed by value; and the speed finder and the shares of a time
// slice, which meet no device. Each is thin over the public function of `lists`, `c51_access`, `record`, `speed` or `shares`; nothing is
// asked of its arguments.
#![tactic(auto)]

ghost use Rattle.std.specs.Prelude.{◌≡◌};
ghost use Rattle.machine.specs.Calls as Machine;
ghost use Rattle.lists.specs.Script.{script, Replayed};
ghost use Rattle.slices.specs.Shares as Slice;
ghost use Rattle.c51_lent.specs.Answers as Numbers;

use machine::refusals::code_of;
use machine::{Answer, Device};

// The speed finder's code, 1 where there is a pair (`found` in c51.h), its SMOD and TH1, and the rate that it achieves. C has no
// Result: 0 or the number, and zeros.
#[repr(C)]
#[derive(Clone, Copy)]
pub struct FoundAnswer {
    pub code: u8,
    pub pair: u8,
    pub smod: u8,
    pub th1: u8,
    pub achieved: u64,
}

// A whole script, by the calls: rows of words in `calls`, the traces' entries in `lent`, and a row of `answers` for each call. What
// lies past the answers stays.
#[unsafe(no_mangle)]
pub extern "C" fn c51_replay(d: &mut Device, calls: &[u64], lent: &[u32], answers: &mut [u64])
    ensures { Replayed d.old (script calls.now lent.now) answers.old d.new answers.new }
{
    *d = lists::replay(*d, calls, lent, answers);
}

// Reset: 2 with a kind other than 51 and 52.
#[unsafe(no_mangle)]
pub extern "C" fn c51_reset(kind: u8) -> Answer
    ensures { result ≡ Machine.reset_answer kind }
{
    let mut d = record::zeros();
    let code = code_of(c51_access::reset(&mut d, kind));
    Answer { code, device: d }
}

// 1 where the record is accepted.
#[unsafe(no_mangle)]
#[tactic(auto, unfolding(crate::specs::Answers::accepts_answer))]
pub extern "C" fn c51_accepts(d: Device) -> u8
    ensures { result ≡ Numbers.accepts_answer d }
{
    u8::from(record::accepts(d))
}

// SMOD and TH1 of Timer 1 for a crystal, a rate and a tolerance, or none: 14.
#[unsafe(no_mangle)]
#[tactic(auto, unfolding(crate::specs::Answers::found_answer))]
pub extern "C" fn c51_speed(crystal: u64, rate: u64, tolerance: u64) -> FoundAnswer
    ensures { result ≡ Numbers.found_answer crystal rate tolerance }
{
    match speed::speed(crystal, rate, tolerance) {
        Ok(Some(setting)) => FoundAnswer {
            code: 0,
            pair: 1,
            smod: setting.smod,
            th1: setting.th1,
            achieved: setting.achieved,
        },
        Ok(None) => FoundAnswer {
            code: 0,
            pair: 0,
            smod: 0,
            th1: 0,
            achieved: 0,
        },
        Err(e) => FoundAnswer {
            code: e.number(),
            pair: 0,
            smod: 0,
            th1: 0,
            achieved: 0,
        },
    }
}

// The share of each tunnel in a slice of b cycles, into an output with a place for each wish: 18, 19. A refused call leaves the output
// untouched.
#[unsafe(no_mangle)]
pub extern "C" fn c51_shares(b: u64, wishes: &[u64], output: &mut [u64]) -> u8
    ensures { (result ≡ (Slice.shares_answer b wishes.now output.old).code) × (output.new ≡ (Slice.shares_answer b wishes.now output.old).output) }
{
    code_of(shares::shares(b, wishes, output))
}
