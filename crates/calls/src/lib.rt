// One call of a script by its number: played by the public call that the number names, its answer written down as a row. This is the
// one place that tells calls by their numbers; specs/Row.antt says what a row spells.
#![tactic(auto)]

ghost use Rattle.std.specs.Prelude.{◌≡◌};
ghost use Rattle.machine.specs.Lists.{play};
ghost use Rattle.calls.specs.Row.{part_of, byte_in, call_of, row_of, plain_reply, number_reply, jump_reply, run_reply, sought_reply};

use machine::refusals::Refusal;
use machine::{Device, Jumped, Totals};

// The words of an answer: its code, how many numbers it gives or NONE, and the numbers, 0 past them.
pub const ANSWER_WORDS: usize = 6;

// The mark of an answer that says none, which C reads in a row of words.
pub const NONE: u64 = 0xffff_ffff_ffff_ffff;

// The calls by their numbers; every other number is a return.
const RESET: u64 = 0;

const READ: u64 = 1;

const WRITE: u64 = 2;

const CYCLE: u64 = 3;

const JUMP: u64 = 4;

const TRACE: u64 = 5;

const LOOK: u64 = 6;

const OFFER: u64 = 7;

const TAKE: u64 = 8;

const WAKE: u64 = 10;

// What a call answers, as it is written down.
pub type Row = [u64; ANSWER_WORDS];

// A call that gives nothing.
fn plain_row(outcome: Result<(), Refusal>) -> Row
    ensures { result ≡ row_of (plain_reply outcome) }
{
    match outcome {
        Ok(()) => [0, 0, 0, 0, 0, 0],
        Err(e) => [u64::from(e.number()), 0, 0, 0, 0, 0],
    }
}

// One that gives a number: a read, a cycle, a take.
fn number_row(outcome: Result<u8, Refusal>) -> Row
    ensures { result ≡ row_of (number_reply outcome) }
{
    match outcome {
        Ok(n) => [0, 1, u64::from(n), 0, 0, 0],
        Err(e) => [u64::from(e.number()), 1, 0, 0, 0, 0],
    }
}

// A jump gives four, and a trace run three.
fn jump_row(outcome: Result<Jumped, Refusal>) -> Row
    ensures { result ≡ row_of (jump_reply outcome) }
{
    match outcome {
        Ok(j) => [
            0,
            4,
            j.totals.timer0,
            j.totals.timer1,
            j.totals.timer2,
            j.rounds,
        ],
        Err(e) => [u64::from(e.number()), 4, 0, 0, 0, 0],
    }
}

fn run_row(outcome: Result<Totals, Refusal>) -> Row
    ensures { result ≡ row_of (run_reply outcome) }
{
    match outcome {
        Ok(t) => [0, 3, t.timer0, t.timer1, t.timer2, 0],
        Err(e) => [u64::from(e.number()), 3, 0, 0, 0, 0],
    }
}

// One that gives a number or none: an offer, a look.
fn sought_row(outcome: Result<Option<u64>, Refusal>) -> Row
    ensures { result ≡ row_of (sought_reply outcome) }
{
    match outcome {
        Ok(Some(n)) => [0, 1, n, 0, 0, 0],
        Ok(None) => [0, NONE, 0, 0, 0, 0],
        Err(e) => [u64::from(e.number()), 1, 0, 0, 0, 0],
    }
}

// An offer's vector as such a number.
fn offer_row(outcome: Result<Option<u8>, Refusal>) -> Row
    ensures { result ≡ row_of (sought_reply outcome) }
{
    match outcome {
        Ok(vector) => sought_row(Ok(vector.map(u64::from))),
        Err(e) => sought_row(Err(e)),
    }
}

// The part of the lent entries from a start to an end; none where these are not in order or not in range.
fn part(lent: &[u32], start: u64, end: u64) -> &[u32]
    ensures { result.now ≡ part_of lent.now start end }
{
    match lent.get(start as usize..end as usize) {
        Some(entries) => entries,
        None => &[],
    }
}

// A kind, an address, a value or a pin byte: the low 8 bits of a word.
fn byte_in(word: u64) -> u8
    ensures { result ≡ byte_in word }
{
    (word % 256) as u8
}

// One call of a script, by the public calls. The numbers are those of the scripts that C hands in, so a word is told by them here.
pub fn play_one(d: &mut Device, op: u64, first: u64, second: u64, lent: &[u32]) -> Row
    ensures row { result ≡ row_of (play (call_of op first second lent.now) d.old).reply }
    ensures device { d.new ≡ (play (call_of op first second lent.now) d.old).device }
{
    match op {
        RESET => plain_row(c51_access::reset(d, byte_in(first))),
        READ => number_row(c51_access::read(*d, byte_in(first))),
        WRITE => plain_row(c51_access::write(d, byte_in(first), byte_in(second))),
        CYCLE => number_row(c51_run::cycle(d, byte_in(first))),
        JUMP => jump_row(c51_run::jump(d, byte_in(first), second)),
        TRACE => run_row(c51_run::trace(d, part(lent, first, second))),
        LOOK => sought_row(c51_run::look(*d, byte_in(first), second)),
        OFFER => offer_row(c51_interrupt::offer(*d)),
        TAKE => number_row(c51_interrupt::take(d)),
        WAKE => sought_row(c51_run::wake(*d, byte_in(first), second)),
        _ => plain_row(c51_interrupt::reti(d)),
    }
}
