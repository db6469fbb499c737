// The types of the plain machine: the device record and its parts, what a step hands on, and what the calls give.
// What the chip does is said in specs/, a file for each section of document 01.
#![tactic(auto)]

pub mod places;
pub mod refusals;

// The most cycles of a jump and of a look, and the most entries of a trace.
pub const LONGEST: u64 = 1 << 40;

pub const MOST_ENTRIES: usize = 65536;

// Timers 0 and 1: registers and due marks. A due mark, document 01's term, is 1 where the counter's pin fell in the last cycle.
#[repr(C)]
#[derive(Clone, Copy)]
pub struct Timers {
    pub tcon: u8,
    pub tmod: u8,
    pub tl0: u8,
    pub tl1: u8,
    pub th0: u8,
    pub th1: u8,
    pub due0: u8,
    pub due1: u8,
}

// Timer 2: registers and due mark.
#[repr(C)]
#[derive(Clone, Copy)]
pub struct Timer2 {
    pub t2con: u8,
    pub rcap2l: u8,
    pub rcap2h: u8,
    pub tl2: u8,
    pub th2: u8,
    pub due2: u8,
}

// Send position, send value and send counter.
#[repr(C)]
#[derive(Clone, Copy)]
pub struct Sender {
    pub position: u8,
    pub value: u16,
    pub counter: u8,
}

// Receive position, receive value, receive counter, votes and last line sample.
#[repr(C)]
#[derive(Clone, Copy)]
pub struct Receiver {
    pub position: u8,
    pub value: u16,
    pub counter: u8,
    pub votes: u8,
    pub sample: u8,
}

// The serial port. SBUF's value is the received byte.
#[repr(C)]
#[derive(Clone, Copy)]
pub struct Serial {
    pub scon: u8,
    pub send: Sender,
    pub receive: Receiver,
    pub half: u8,
    pub received: u8,
}

// The interrupt controller: registers, the levels in service, and document 01's seen, the flags that the last cycle left, and
// polled, those that the cycle before it left, and Timer 2's also where an overflow set TF2 in the last.
#[repr(C)]
#[derive(Clone, Copy)]
pub struct Interrupts {
    pub ie: u8,
    pub ip: u8,
    pub seen: u8,
    pub polled: u8,
    pub low: u8,
    pub high: u8,
}

// When each of the eight flags last rose, in the order TF0, TF1, IE0, IE1, RI, TI, TF2, EXF2: 1 where it ever did since reset, and the
// cycle number after the cycle in which it last did. Two arrays, as C has the record.
#[repr(C)]
#[derive(Clone, Copy)]
pub struct FlagTimes {
    pub ever: [u8; 8],
    pub number: [u64; 8],
}

// The device record. The saved levels are those of RXD, INT0, INT1, T0, T1, T2, T2EX.
#[repr(C)]
#[derive(Clone, Copy)]
pub struct Device {
    pub kind: u8,
    pub pcon: u8,
    pub timers: Timers,
    pub timer2: Timer2,
    pub serial: Serial,
    pub interrupts: Interrupts,
    pub levels: [u8; 7],
    pub cycle: u64,
    pub times: FlagTimes,
}

// A timer's register pair after a count, and 1 where it overflowed.
#[derive(Clone, Copy)]
pub struct Count {
    pub tl: u8,
    pub th: u8,
    pub overflow: u8,
}

// Step 2: Timers 0 and 1, and the overflows of Timer 0 (TL0 in mode 3), of TH0 in mode 3 and of Timer 1.
#[derive(Clone, Copy)]
pub struct TimersCounted {
    pub timers: Timers,
    pub overflow0: u8,
    pub overflow_th0: u8,
    pub overflow1: u8,
}

// A 16-bit count and its overflows so far.
#[derive(Clone, Copy)]
pub struct Counted16 {
    pub count: u16,
    pub overflows: u8,
}

// Step 3: Timer 2, its overflows, and 1 where one of them set TF2.
#[derive(Clone, Copy)]
pub struct Timer2Counted {
    pub timer2: Timer2,
    pub overflows: u8,
    pub tf2: u8,
}

// Steps 2 and 3: what the timers count in a cycle.
#[derive(Clone, Copy)]
pub struct Counted {
    pub timers: TimersCounted,
    pub timer2: Timer2Counted,
}

// The overflows of a cycle: of Timer 0 (TL0 in mode 3), of TH0 in mode 3, of Timer 1 and of Timer 2.
#[derive(Clone, Copy)]
pub struct Overflows {
    pub timer0: u8,
    pub th0: u8,
    pub timer1: u8,
    pub timer2: u8,
}

// The overflow totals of a jump and of a trace run: of Timer 0, TH0 in mode 3 too, of Timer 1 and of Timer 2.
#[repr(C)]
#[derive(Clone, Copy)]
pub struct Totals {
    pub timer0: u64,
    pub timer1: u64,
    pub timer2: u64,
}

// Step 4: the ticks of the sender and of the receiver, and half after them.
#[derive(Clone, Copy)]
pub struct Ticks {
    pub send: u8,
    pub receive: u8,
    pub half: u8,
}

// The answer of reset, write, return and load, as C is given it, which has no Result: 0 or the refusal's number, and the device.
#[repr(C)]
#[derive(Clone, Copy)]
pub struct Answer {
    pub code: u8,
    pub device: Device,
}

// What a jump gives: the overflow totals and the rounds.
#[derive(Clone, Copy)]
pub struct Jumped {
    pub totals: Totals,
    pub rounds: u64,
}

// A part of a checkpoint: a byte that can only be this one, a count or an address; or the value of a place, in so many bytes.
#[derive(Clone, Copy)]
pub enum Part {
    Mark(u8),
    Value { place: usize, width: usize },
}
