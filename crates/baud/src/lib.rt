// The types of the speed finder, which gives SMOD and TH1 of Timer 1 for a wanted speed (request Four). What it answers is said in specs/.
#![tactic(auto)]

// SMOD and TH1 of Timer 1 in mode 2, which clocks the serial port.
#[derive(Clone, Copy)]
pub struct Pair {
    pub smod: u8,
    pub th1: u8,
}

// A fraction of whole numbers.
#[derive(Clone, Copy)]
pub struct Fraction {
    pub numerator: u64,
    pub denominator: u64,
}

// A pair that is found, with the rate that it achieves in whole bits a second.
#[derive(Clone, Copy)]
pub struct Setting {
    pub smod: u8,
    pub th1: u8,
    pub achieved: u64,
}
