// The library for C, the 82C53: the calls that alter its record, over one that is lent by reference and altered there, and the others over
// one passed by value. Each is thin over the public call of `c53`; nothing is asked of the record.
#![tactic(auto)]

ghost use Rattle.std.specs.Prelude.{◌≡◌};
ghost use Rattle.interval.specs.Interval as Plain;
ghost use Rattle.interval.specs.Calls as Timer;
ghost use Rattle.c53_lent.specs.Answers as Numbers;

use interval::Interval;
use machine::refusals::{Refusal, code_of};

// A read's code and the byte. C has no Result: 0 or the number, and zeros.
#[repr(C)]
#[derive(Clone, Copy)]
pub struct ValueAnswer {
    pub code: u8,
    pub value: u8,
}

// The code of a pulse or a jump, and the outputs. C has no Result: 0 or the number, and zeros.
#[repr(C)]
#[derive(Clone, Copy)]
pub struct OutputsAnswer {
    pub code: u8,
    pub outputs: u8,
}

// Write a byte of a count at 0 to 2, the control word at 3: 1, 12, 11, 13.
#[unsafe(no_mangle)]
pub extern "C" fn c53_write(c: &mut Interval, address: u8, byte: u8) -> u8
    ensures { (result ≡ (Timer.write_answer c.old address byte).code) × (c.new ≡ (Timer.write_answer c.old address byte).interval) }
{
    code_of(c53::write(c, address, byte))
}

// Read a byte of a count at 0 to 2: 1, 12.
#[unsafe(no_mangle)]
pub extern "C" fn c53_read(c: &mut Interval, address: u8) -> ValueAnswer
    ensures { (result.code ≡ (Timer.read_answer c.old address).code) × ((result.value ≡ (Timer.read_answer c.old address).value) × (c.new ≡ (Timer.read_answer c.old address).interval)) }
{
    match c53::read(c, address) {
        Ok(value) => ValueAnswer { code: 0, value },
        Err(e) => ValueAnswer {
            code: e.number(),
            value: 0,
        },
    }
}

// A pulse or a jump for C.
fn outputs_answer(outcome: Result<u8, Refusal>) -> OutputsAnswer
    ensures { result ≡ Numbers.outputs_answer outcome }
{
    match outcome {
        Ok(outputs) => OutputsAnswer { code: 0, outputs },
        Err(e) => OutputsAnswer {
            code: e.number(),
            outputs: 0,
        },
    }
}

// One pulse with a gate byte: 1, 4.
#[unsafe(no_mangle)]
pub extern "C" fn c53_pulse(c: &mut Interval, gates: u8) -> OutputsAnswer
    ensures { (result.code ≡ (Timer.pulse_answer c.old gates).code) × ((result.outputs ≡ (Timer.pulse_answer c.old gates).outputs) × (c.new ≡ (Timer.pulse_answer c.old gates).interval)) }
{
    outputs_answer(c53::pulse(c, gates))
}

// n pulses with one gate byte: 1, 4, 5.
#[unsafe(no_mangle)]
pub extern "C" fn c53_jump(c: &mut Interval, gates: u8, n: u64) -> OutputsAnswer
    ensures { (result.code ≡ (Timer.jump_answer c.old gates n).code) × ((result.outputs ≡ (Timer.jump_answer c.old gates n).outputs) × (c.new ≡ (Timer.jump_answer c.old gates n).interval)) }
{
    outputs_answer(c53::jump(c, gates, n))
}

// Reset of the 82C53.
#[unsafe(no_mangle)]
pub extern "C" fn c53_reset() -> Interval
    ensures { result ≡ Plain.reset_of }
{
    c53::reset()
}

// The outputs of the 82C53, bits 0 to 2.
#[unsafe(no_mangle)]
pub extern "C" fn c53_outputs(c: Interval) -> u8
    ensures { result ≡ Plain.outputs c }
{
    c53::outputs(c)
}

// 1 where the record is accepted.
#[unsafe(no_mangle)]
#[tactic(auto, unfolding(crate::specs::Answers::accepts_answer))]
pub extern "C" fn c53_accepts(c: Interval) -> u8
    ensures { result ≡ Numbers.accepts_answer c }
{
    u8::from(c53::accepts(c))
}
