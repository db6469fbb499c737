// The bits of the registers and of the pin byte by their places, as specs/Registers.antt has them.

// PCON.
pub const SMOD: u8 = 7;

pub const PD: u8 = 1;

pub const IDL: u8 = 0;

// TCON.
pub const TF1: u8 = 7;

pub const TR1: u8 = 6;

pub const TF0: u8 = 5;

pub const TR0: u8 = 4;

pub const IE1: u8 = 3;

pub const IT1: u8 = 2;

pub const IE0: u8 = 1;

pub const IT0: u8 = 0;

// TMOD: GATE, C/T, and the lower of the two mode bits of each timer.
pub const GATE1: u8 = 7;

pub const CT1: u8 = 6;

pub const MODE1: u8 = 4;

pub const GATE0: u8 = 3;

pub const CT0: u8 = 2;

pub const MODE0: u8 = 0;

// SCON: the lower of the two mode bits SM0 SM1, and the others.
pub const SM01: u8 = 6;

pub const SM2: u8 = 5;

pub const REN: u8 = 4;

pub const TB8: u8 = 3;

pub const RB8: u8 = 2;

pub const TI: u8 = 1;

pub const RI: u8 = 0;

// IE: the general enable, and Timer 2's, whose place is that of Timer 2 in IP, seen and polled too.
pub const EA: u8 = 7;

pub const ET2: u8 = 5;

// T2CON.
pub const TF2: u8 = 7;

pub const EXF2: u8 = 6;

pub const RCLK: u8 = 5;

pub const TCLK: u8 = 4;

pub const EXEN2: u8 = 3;

pub const TR2: u8 = 2;

pub const CT2: u8 = 1;

pub const CPRL2: u8 = 0;

// The bits of the flags in TCON (TF1, TF0, IE1, IE0), in SCON (TI, RI) and in T2CON (TF2, EXF2).
pub const TCON_FLAGS: u8 = 0xaa;

pub const SCON_FLAGS: u8 = 0x03;

pub const T2CON_FLAGS: u8 = 0xc0;

// The bits of the six sources in IE, IP, seen and polled.
pub const SOURCES: u8 = 0x3f;

// The pin byte, and the saved levels.
pub const RXD: u8 = 0;

pub const INT0: u8 = 1;

pub const INT1: u8 = 2;

pub const T0: u8 = 3;

pub const T1: u8 = 4;

pub const T2: u8 = 5;

pub const T2EX: u8 = 6;
