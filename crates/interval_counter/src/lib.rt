// One counter of the 82C53: the record check, the control word and the latch, a byte written and a byte read, and one pulse.
#![tactic(auto)]

ghost use Rattle.std.specs.Prelude.{◌≡◌, true, ◌≤◌};
ghost use Rattle.interval.specs.Count as Count;
ghost use Rattle.interval.specs.Counter as Plain;
ghost use Rattle.interval.specs.Interval.{counter_ok};
ghost use Rattle.interval.specs.Outcomes.{counter_answered};

use interval::{ByteRead, Counter};
use laws::picked;
use machine::refusals::Refusal;

// The places of the control word: the counter's choice, the format, the mode and BCD.
pub const SC: u8 = 6;

const RL: u8 = 4;

const M: u8 = 1;

// The formats; a control word with none is a latch.
const LATCH: u8 = 0;

const LOW: u8 = 1;

const HIGH: u8 = 2;

pub const BOTH: u8 = 3;

// The largest count: 16 bits, or four decades.
#[tactic(auto, unfolding(interval::specs::Count::most))]
pub fn most(bcd: u8) -> u16
    ensures { result ≡ Count.most bcd }
{
    picked(bcd == 1, 9999, 65535)
}

// One count down; below 0 stands the largest count.
#[tactic(auto, unfolding(interval::specs::Count::one_below))]
pub fn one_below(top: u16, n: u16) -> u16
    ensures { result ≡ Count.one_below top n }
{
    if n == 0 { top } else { n - 1 }
}

// No digit of four decades is above nine.
#[tactic(auto, unfolding(interval::specs::Count::digits_ok))]
fn digits_ok(v: u16) -> bool
    ensures { result ≡ Count.digits_ok v }
{
    ((v >> 12 <= 9) & ((v >> 8) & 15 <= 9)) & (((v >> 4) & 15 <= 9) & (v & 15 <= 9))
}

// The number that four decades show.
#[tactic(auto, unfolding(interval::specs::Count::decimal))]
fn decimal(v: u16) -> u16
    ensures { result ≡ Count.decimal v }
{
    (v >> 12) * 1000 + ((v >> 8) & 15) * 100 + ((v >> 4) & 15) * 10 + (v & 15)
}

// The four decades of a number.
#[tactic(auto, unfolding(interval::specs::Count::decades))]
fn decades(n: u16) -> u16
    requires { n ≤ 9999 }
    ensures { result ≡ Count.decades n }
{
    n / 1000 * 4096 + n / 100 % 10 * 256 + n / 10 % 10 * 16 + n % 10
}

// Each field of a counter within its range.
pub fn counter_ok(k: Counter) -> bool
    ensures { result ≡ counter_ok k }
{
    let top = most(k.bcd);
    ((k.mode == 0) | (k.mode == 2))
        & ((LOW <= k.format) & (k.format <= BOTH))
        & (k.bcd <= 1)
        & (k.output <= 1)
        & (k.gate <= 1)
        & (k.loaded <= 1)
        & (k.waits <= 1)
        & (k.first <= 1)
        & (k.high <= 1)
        & (k.latched <= 1)
        & (k.count <= top)
        & (k.reload <= top)
        & (k.waiting <= top)
        & (k.latch <= top)
}

// As a control word leaves a counter.
#[tactic(auto, unfolding(interval::specs::Counter::fresh))]
pub fn fresh(mode: u8, bcd: u8, format: u8, gate: u8) -> Counter
    ensures { result ≡ Plain.fresh mode bcd format gate }
{
    Counter {
        mode,
        bcd,
        format,
        output: picked(mode == 0, 0, 1),
        gate,
        loaded: 0,
        waits: 0,
        first: 0,
        low: 0,
        high: 0,
        latched: 0,
        count: 0,
        reload: 0,
        waiting: 0,
        latch: 0,
    }
}

// A latch takes the count as it stands; a second meanwhile is ignored.
#[tactic(auto, unfolding(interval::specs::Counter::latch_now, interval::specs::Counter::reads))]
fn latch_now(k: Counter) -> Counter
    ensures { result ≡ Plain.latch_now k }
{
    if k.latched == 1 {
        return k;
    }
    Counter {
        latched: 1,
        latch: k.count,
        ..k
    }
}

// A control word for this counter: a latch, or a format, a mode and BCD.
#[tactic(auto, unfolding(interval::specs::Counter::control))]
pub fn control(word: u8, k: Counter) -> Result<Counter, Refusal>
    ensures { counter_answered result k ≡ Plain.control word k }
{
    let format = (word >> RL) & 3;
    if format == LATCH {
        return Ok(latch_now(k));
    }
    let mode0 = (word >> M) & 7 == 0;
    if mode0 | ((word >> M) & 3 == 2) {
        return Ok(fresh(picked(mode0, 0, 2), word & 1, format, k.gate));
    }
    Err(Refusal::BadMode)
}

// The two bytes of the count that a byte completes; a byte outside the format is 00.
#[tactic(auto, unfolding(interval::specs::Counter::whole))]
fn whole(byte: u8, k: Counter) -> u16
    ensures { result ≡ Plain.whole byte k }
{
    match k.format {
        LOW => u16::from(byte),
        HIGH => u16::from_le_bytes([0, byte]),
        _ => u16::from_le_bytes([k.low, byte]),
    }
}

// A BCD digit above nine, or a mode 2 count of 1.
#[tactic(auto, unfolding(interval::specs::Counter::bad_count))]
fn bad_count(v: u16, k: Counter) -> bool
    ensures { result ≡ Plain.bad_count v k }
{
    ((k.bcd == 1) & !digits_ok(v)) | (!(k.mode == 0) & (v == 1))
}

// A byte of a count: with both the low byte comes first; a count that is complete is tested, and waits for its load.
#[tactic(auto, unfolding(interval::specs::Counter::write_byte, interval::specs::Counter::begun, interval::specs::Counter::complete, interval::specs::Count::number_of))]
pub fn write_byte(byte: u8, k: Counter) -> Result<Counter, Refusal>
    ensures { counter_answered result k ≡ Plain.write_byte byte k }
{
    if (k.format == BOTH) & !(k.first == 1) {
        return Ok(Counter {
            first: 1,
            low: byte,
            ..k
        });
    }
    let v = whole(byte, k);
    if bad_count(v, k) {
        return Err(Refusal::BadCount);
    }
    Ok(Counter {
        output: picked(k.mode == 0, 0, k.output),
        waits: 1,
        first: 0,
        low: 0,
        waiting: picked(k.bcd == 1, decimal(v), v),
        ..k
    })
}

// The two bytes that are shown: of the latch, or of the count as it stands. The ranges are asked for: the record is C's.
#[tactic(auto, using(interval::proofs::Ranges::within_of, interval::proofs::Ranges::shown_le), unfolding(interval::specs::Counter::shown, interval::specs::Count::shown_as))]
fn shown(k: Counter) -> u16
    requires { counter_ok k ≡ true }
    ensures { result ≡ Plain.shown k }
{
    let n = picked(k.latched == 1, k.latch, k.count);
    if k.bcd == 1 { decades(n) } else { n }
}

// A byte read: with both, low and high alternate; a latch stays until it is read, with both until its high byte is.
#[tactic(auto, unfolding(interval::specs::Counter::read_byte, interval::specs::Counter::reads))]
pub fn read_byte(k: Counter) -> ByteRead
    requires { counter_ok k ≡ true }
    ensures { result ≡ Plain.read_byte k }
{
    let [low, high] = shown(k).to_le_bytes();
    if (k.format == BOTH) & !(k.high == 1) {
        return ByteRead {
            value: low,
            counter: Counter { high: 1, ..k },
        };
    }
    ByteRead {
        value: picked(k.format == LOW, low, high),
        counter: Counter {
            high: 0,
            latched: 0,
            latch: 0,
            ..k
        },
    }
}

// A count and an output.
#[tactic(auto, unfolding(interval::specs::Counter::stands))]
pub fn stands(n: u16, output: u8, k: Counter) -> Counter
    ensures { result ≡ Plain.stands n output k }
{
    Counter {
        count: n,
        output,
        ..k
    }
}

// A load: the count stands, it is the one to reload, and none waits.
#[tactic(auto, unfolding(interval::specs::Counter::load))]
pub fn load(n: u16, output: u8, k: Counter) -> Counter
    ensures { result ≡ Plain.load n output k }
{
    Counter {
        count: n,
        output,
        loaded: 1,
        reload: n,
        waits: 0,
        waiting: 0,
        ..k
    }
}

// Mode 0 counts: a count is loaded, no first byte of a new one has stopped it, and the gate is high.
#[tactic(auto, unfolding(interval::specs::Counter::counts0))]
pub fn counts0(gate: u8, k: Counter) -> bool
    ensures { result ≡ Plain.counts0 gate k }
{
    (k.loaded == 1) & (!(k.first == 1) & (gate == 1))
}

// One pulse in mode 0: a load, or a count that raises the output at 0, or nothing.
#[tactic(auto, unfolding(interval::specs::Counter::pulse0, interval::specs::Counter::down0))]
fn pulse0(gate: u8, k: Counter) -> Counter
    ensures { result ≡ Plain.pulse0 gate k }
{
    if k.waits == 1 {
        return load(k.waiting, k.output, k);
    }
    if !counts0(gate, k) {
        return k;
    }
    let n = one_below(most(k.bcd), k.count);
    stands(n, picked(n == 0, 1, k.output), k)
}

// What a reload loads: the new count where one waits, else the same again.
#[tactic(auto, unfolding(interval::specs::Counter::again))]
pub fn again(k: Counter) -> u16
    ensures { result ≡ Plain.again k }
{
    picked(k.waits == 1, k.waiting, k.reload)
}

// One pulse in mode 2: the first load, or nothing before it; then a low gate that forces the output high, a reload, or a count that lowers
// the output at 1.
#[tactic(auto, unfolding(interval::specs::Counter::pulse2, interval::specs::Counter::reloads, interval::specs::Counter::down2))]
fn pulse2(gate: u8, k: Counter) -> Counter
    ensures { result ≡ Plain.pulse2 gate k }
{
    if !(k.loaded == 1) {
        if k.waits == 1 {
            return load(k.waiting, k.output, k);
        }
        return k;
    }
    if !(gate == 1) {
        return stands(k.count, 1, k);
    }
    if (k.gate == 0) | (k.count == 1) {
        return load(again(k), 1, k);
    }
    let n = one_below(most(k.bcd), k.count);
    stands(n, picked(n == 1, 0, k.output), k)
}

// One pulse with a gate level.
#[tactic(auto, unfolding(interval::specs::Counter::pulse, interval::specs::Counter::with_gate))]
pub fn pulse(gate: u8, k: Counter) -> Counter
    ensures { result ≡ Plain.pulse gate k }
{
    let pulsed = if k.mode == 0 {
        pulse0(gate, k)
    } else {
        pulse2(gate, k)
    };
    Counter { gate, ..pulsed }
}
