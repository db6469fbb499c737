// The types of the plain 82C53: a counter, the chip, and a byte read. What it does is said in specs/.
#![tactic(auto)]

// A counter. A mark is 0 or 1. A count is a number, below 65,536, in BCD below 10,000; its four decades are made where it is read.
#[repr(C)]
#[derive(Clone, Copy)]
pub struct Counter {
    // 0 or 2.
    pub mode: u8,
    // 1: it counts in BCD.
    pub bcd: u8,
    // The bytes of a count that are read and written: 1 low, 2 high, 3 both.
    pub format: u8,
    // The output's level.
    pub output: u8,
    // The gate's level at the last pulse.
    pub gate: u8,
    // 1: a count was loaded since the control word; it is what a reload loads again.
    pub loaded: u8,
    // 1: a whole count is written and waits for its load.
    pub waits: u8,
    // 1: the first of two bytes is written; it is `low`.
    pub first: u8,
    pub low: u8,
    // 1: of both bytes the high one is read next.
    pub high: u8,
    // 1: a count is latched.
    pub latched: u8,
    pub count: u16,
    pub reload: u16,
    pub waiting: u16,
    pub latch: u16,
}

// The chip: its three counters.
#[repr(C)]
#[derive(Clone, Copy)]
pub struct Interval {
    pub counter0: Counter,
    pub counter1: Counter,
    pub counter2: Counter,
}

// A byte read, and the counter after it.
#[derive(Clone, Copy)]
pub struct ByteRead {
    pub value: u8,
    pub counter: Counter,
}
