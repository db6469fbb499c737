// The registers: the table of addresses and implemented bits, reads and stores.
#![tactic(auto)]

ghost use Rattle.std.specs.Prelude.{◌≡◌, ◌<◌};
ghost use Rattle.machine.specs.Registers as Table;
ghost use Rattle.machine.specs.Calls as Calls;
ghost use Rattle.registers.specs.Places.{row_at, address_at, address_of, Found};

use machine::Device;
use machine::refusals::Refusal;

// The addresses.
const PCON: u8 = 0x87;

const TCON: u8 = 0x88;

const TMOD: u8 = 0x89;

const TL0: u8 = 0x8a;

const TL1: u8 = 0x8b;

const TH0: u8 = 0x8c;

const TH1: u8 = 0x8d;

const SCON: u8 = 0x98;

const SBUF: u8 = 0x99;

const IE: u8 = 0xa8;

const IP: u8 = 0xb8;

const T2CON: u8 = 0xc8;

const RCAP2L: u8 = 0xca;

const RCAP2H: u8 = 0xcb;

const TL2: u8 = 0xcc;

const TH2: u8 = 0xcd;

// The table: an address, and the implemented bits there on kind 51 and on kind 52; a kind without any lacks the address.
const TABLE: [[u8; 3]; 16] = [
    [PCON, 0x8f, 0x8f],
    [TCON, 0xff, 0xff],
    [TMOD, 0xff, 0xff],
    [TL0, 0xff, 0xff],
    [TL1, 0xff, 0xff],
    [TH0, 0xff, 0xff],
    [TH1, 0xff, 0xff],
    [SCON, 0xff, 0xff],
    [SBUF, 0xff, 0xff],
    [IE, 0x9f, 0xbf],
    [IP, 0x1f, 0x3f],
    [T2CON, 0, 0xff],
    [RCAP2L, 0, 0xff],
    [RCAP2H, 0, 0xff],
    [TL2, 0, 0xff],
    [TH2, 0, 0xff],
];

// A register of the chip.
#[derive(Clone, Copy, Debug, PartialEq, Eq)]
pub enum Register {
    Pcon,
    Tcon,
    Tmod,
    Tl0,
    Tl1,
    Th0,
    Th1,
    Scon,
    Sbuf,
    Ie,
    Ip,
    T2con,
    Rcap2l,
    Rcap2h,
    Tl2,
    Th2,
}

// A row of the table.
#[tactic(auto, unfolding(crate::specs::Places::row_at, machine::specs::Registers::table))]
pub fn row(n: usize) -> [u8; 3]
    requires { n < 16 }
    ensures { result ≡ row_at n }
{
    let rows = TABLE;
    rows[n]
}

// The implemented bits on a kind by a row of the table.
#[tactic(auto, using(crate::proofs::Table::row_bits))]
fn mask(kind: u8, n: usize) -> u8
    requires { n < 16 }
    ensures { result ≡ Table.implemented kind (address_at n) }
{
    let at = row(n);
    laws::picked(kind == 51, at[1], at[2])
}

// The implemented bits of a register. Each arm looks up a fixed row, so that no table is made when it runs.
pub fn implemented(kind: u8, r: Register) -> u8
    ensures { result ≡ Table.implemented kind (address_of r) }
{
    match r {
        Register::Pcon => mask(kind, 0),
        Register::Tcon => mask(kind, 1),
        Register::Tmod => mask(kind, 2),
        Register::Tl0 => mask(kind, 3),
        Register::Tl1 => mask(kind, 4),
        Register::Th0 => mask(kind, 5),
        Register::Th1 => mask(kind, 6),
        Register::Scon => mask(kind, 7),
        Register::Sbuf => mask(kind, 8),
        Register::Ie => mask(kind, 9),
        Register::Ip => mask(kind, 10),
        Register::T2con => mask(kind, 11),
        Register::Rcap2l => mask(kind, 12),
        Register::Rcap2h => mask(kind, 13),
        Register::Tl2 => mask(kind, 14),
        Register::Th2 => mask(kind, 15),
    }
}

// A register with the implemented bits that the kind has there, unless the kind lacks it.
fn present(kind: u8, r: Register) -> Result<(Register, u8), Refusal>
    ensures { Found kind (address_of r) result }
{
    let bits = implemented(kind, r);
    if bits == 0 {
        return Err(Refusal::BadAddress);
    }
    Ok((r, bits))
}

// What stands at an address that a caller gives: a register with the implemented bits that the kind has there.
#[tactic(auto, using(std::proofs::lemmas::Bool::Decides::nat_tests), unfolding(crate::specs::Places::row_at, machine::specs::Registers::table, machine::specs::Registers::implemented, machine::specs::Registers::implemented_in))]
pub fn find(kind: u8, address: u8) -> Result<(Register, u8), Refusal>
    ensures { Found kind address result }
{
    // The one place that tells registers by their addresses.
    match address {
        PCON => present(kind, Register::Pcon),
        TCON => present(kind, Register::Tcon),
        TMOD => present(kind, Register::Tmod),
        TL0 => present(kind, Register::Tl0),
        TL1 => present(kind, Register::Tl1),
        TH0 => present(kind, Register::Th0),
        TH1 => present(kind, Register::Th1),
        SCON => present(kind, Register::Scon),
        SBUF => present(kind, Register::Sbuf),
        IE => present(kind, Register::Ie),
        IP => present(kind, Register::Ip),
        T2CON => present(kind, Register::T2con),
        RCAP2L => present(kind, Register::Rcap2l),
        RCAP2H => present(kind, Register::Rcap2h),
        TL2 => present(kind, Register::Tl2),
        TH2 => present(kind, Register::Th2),
        _ => Err(Refusal::BadAddress),
    }
}

// The value of a register: of SBUF the received byte.
#[tactic(auto, unfolding(crate::specs::Places::row_at, machine::specs::Registers::table, machine::specs::Calls::register_at, machine::specs::Calls::value_in, machine::specs::Record::registers))]
pub fn value_of(d: Device, r: Register) -> u8
    ensures { result ≡ Calls.register_at d (address_of r) }
{
    match r {
        Register::Pcon => d.pcon,
        Register::Tcon => d.timers.tcon,
        Register::Tmod => d.timers.tmod,
        Register::Tl0 => d.timers.tl0,
        Register::Tl1 => d.timers.tl1,
        Register::Th0 => d.timers.th0,
        Register::Th1 => d.timers.th1,
        Register::Scon => d.serial.scon,
        Register::Sbuf => d.serial.received,
        Register::Ie => d.interrupts.ie,
        Register::Ip => d.interrupts.ip,
        Register::T2con => d.timer2.t2con,
        Register::Rcap2l => d.timer2.rcap2l,
        Register::Rcap2h => d.timer2.rcap2h,
        Register::Tl2 => d.timer2.tl2,
        Register::Th2 => d.timer2.th2,
    }
}

// The device with a register stored: SCON and SBUF do what the serial section says.
#[tactic(auto, unfolding(crate::specs::Places::row_at, machine::specs::Registers::table, machine::specs::Calls::stored))]
pub fn stored(d: Device, r: Register, v: u8) -> Device
    ensures { result ≡ Calls.stored d (address_of r) v }
{
    let mut e = d;
    match r {
        Register::Pcon => e.pcon = v,
        Register::Tcon => e.timers.tcon = v,
        Register::Tmod => e.timers.tmod = v,
        Register::Tl0 => e.timers.tl0 = v,
        Register::Tl1 => e.timers.tl1 = v,
        Register::Th0 => e.timers.th0 = v,
        Register::Th1 => e.timers.th1 = v,
        Register::Scon => e.serial = serial::write_scon(v, d.serial),
        Register::Sbuf => e.serial = serial::write_sbuf(v, d.serial),
        Register::Ie => e.interrupts.ie = v,
        Register::Ip => e.interrupts.ip = v,
        Register::T2con => e.timer2.t2con = v,
        Register::Rcap2l => e.timer2.rcap2l = v,
        Register::Rcap2h => e.timer2.rcap2h = v,
        Register::Tl2 => e.timer2.tl2 = v,
        Register::Th2 => e.timer2.th2 = v,
    }
    e
}
