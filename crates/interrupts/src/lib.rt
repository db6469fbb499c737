// The interrupt controller: IE0 and IE1 from their pins, what is seen, the offer, a take and a return.
#![tactic(auto)]

ghost use Rattle.std.specs.Prelude.{◌≡◌, cond, ℕ, ◌<◌, eqb, IfSome};
ghost use Rattle.machine.specs.Bits.{bit, clear_bit};
ghost use Rattle.machine.specs.Interrupts as Interrupt;
ghost use Rattle.interrupts.specs.Number.{source_of, first_set, holding};

use laws::picked;
use machine::Interrupts;
use machine::places::{EA, IE0, IE1, IT0, IT1, SCON_FLAGS, SOURCES, T2CON_FLAGS, TF0, TF1};

// A source is a number from 0 to 5: its bit's place in IE, IP, seen and polled.

// The bits of the sources in seen: of INT0 and INT1, of Timers 0 and 1, of the serial port and of Timer 2.
const EXTERNALS: u8 = 0x05;

const TIMERS: u8 = 0x0a;

const SERIAL: u8 = 0x10;

const TIMER2: u8 = 0x20;

// TCON with IEi as the pin INTi leaves it: on a fall with ITi = 1, by its level with ITi = 0. ITi and IEi are at bits
// it and ie.
#[tactic(auto, using(laws::proofs::Bits::and_one, laws::proofs::Bits::or_shl, laws::proofs::Bits::clear_shl), unfolding(machine::specs::Interrupts::external))]
pub fn external(it: u8, ie: u8, fell: u8, level: u8, tcon: u8) -> u8
    requires it_bound { it < 8 }
    requires ie_bound { ie < 8 }
    ensures { result ≡ Interrupt.external it ie fell level tcon }
{
    let mask = 1u8 << ie;
    let by_edge = picked(fell == 1, tcon | mask, tcon);
    let by_level = picked(level == 0, tcon | mask, tcon & !mask);
    picked(((tcon >> it) & 1) == 1, by_edge, by_level)
}

// What seen takes: IE0, TF0, IE1, TF1, RI or TI, TF2 or EXF2, from bit 0. IE0 and IE1 move down by 1, TF0 and TF1 by 4.
#[tactic(auto, using(crate::proofs::Laws::seen_by_masks))]
pub fn seen_of(tcon: u8, scon: u8, t2con: u8) -> u8
    ensures { result ≡ Interrupt.seen_of tcon scon t2con }
{
    let timers = ((tcon >> 1) & EXTERNALS) | ((tcon >> 4) & TIMERS);
    let serial = picked((scon & SCON_FLAGS) == 0, 0, SERIAL);
    let timer2 = picked((t2con & T2CON_FLAGS) == 0, 0, TIMER2);
    timers | serial | timer2
}

// The first source whose bit is set.
fn first_of(sources: u8) -> Option<u8>
    ensures source { result ≡ source_of (first_set sources) }
    ensures below { IfSome result (λ k. k < 6) }
{
    let first = sources.trailing_zeros() as u8;
    (first < 6).then_some(first)
}

// The source that is offered out of power-down: from these five numbers alone, whatever seen holds.
fn choice(polled: u8, ie: u8, ip: u8, low: u8, high: u8) -> Option<u8>
    ensures source { (seen : ℕ) → result ≡ source_of (Interrupt.choice (holding polled ie ip low high seen)) }
    ensures below { IfSome result (λ k. k < 6) }
{
    let enabled = picked(((ie >> EA) & 1) == 1, ie & SOURCES, 0);
    let asking = polled & enabled;
    let marked = asking & ip;
    let unmarked = picked(low == 1, 0, asking);
    let chosen = picked(marked == 0, unmarked, marked);
    first_of(picked(high == 1, 0, chosen))
}

// The source that is offered: none in power-down.
#[tactic(auto, unfolding(machine::specs::Interrupts::offered))]
pub fn offered(pcon: u8, i: Interrupts) -> Option<u8>
    ensures source { result ≡ source_of (Interrupt.offered pcon i) }
    ensures below { IfSome result (λ k. k < 6) }
{
    if laws::powered_down(pcon) {
        return None;
    }
    choice(i.polled, i.ie, i.ip, i.low, i.high)
}

// An interrupt is offered.
pub fn offers(pcon: u8, i: Interrupts) -> bool
    ensures { result ≡ Interrupt.offers pcon i }
{
    offered(pcon, i).is_some()
}

// The vector of a source: 03, and 8 more for each source after the first.
#[tactic(auto, using(crate::proofs::Laws::vector_by_shift))]
pub fn vector_of(k: u8) -> u8
    requires { k < 6 }
    ensures { result ≡ Interrupt.vector_of k }
{
    (k << 3) | 0x03
}

// A take of the source k: its level is in service, and its bit in seen and polled is cleared.
#[tactic(auto, using(laws::proofs::Bits::and_one, laws::proofs::Bits::clear_shl), unfolding(machine::specs::Interrupts::in_service))]
pub fn in_service(k: u8, i: Interrupts) -> Interrupts
    requires { k < 6 }
    ensures { result ≡ Interrupt.in_service k i }
{
    let others = !(1u8 << k);
    let marked = ((i.ip >> k) & 1) == 1;
    Interrupts {
        ie: i.ie,
        ip: i.ip,
        seen: i.seen & others,
        polled: i.polled & others,
        low: picked(marked, i.low, 1),
        high: picked(marked, 1, i.high),
    }
}

// TCON after a take of an external source: IEi is cleared if ITi = 1. ITi and IEi are at bits it and ie.
#[tactic(auto, using(laws::proofs::Bits::and_one, laws::proofs::Bits::clear_shl))]
fn edge_taken(it: u8, ie: u8, tcon: u8) -> u8
    requires it_bound { it < 8 }
    requires ie_bound { ie < 8 }
    ensures { result ≡ cond (eqb (bit it tcon) 1) (clear_bit ie tcon) tcon }
{
    picked(((tcon >> it) & 1) == 1, tcon & !(1 << ie), tcon)
}

// TCON after a take of the source k: a timer's TFi is cleared, an external source's IEi if its ITi = 1.
#[tactic(auto, using(laws::proofs::Bits::clear_bit_lem), unfolding(machine::specs::Interrupts::taken))]
pub fn taken(k: u8, tcon: u8) -> u8
    ensures { result ≡ Interrupt.taken k tcon }
{
    // A number: it is the place of the source's bit in IE, IP, seen and polled.
    match k {
        0 => edge_taken(IT0, IE0, tcon),
        1 => tcon & !(1 << TF0),
        2 => edge_taken(IT1, IE1, tcon),
        3 => tcon & !(1 << TF1),
        _ => tcon,
    }
}

// Nothing in service.
pub fn none_in_service(i: Interrupts) -> bool
    ensures { result ≡ Interrupt.none_in_service i }
{
    (i.high == 0) & (i.low == 0)
}

// A return clears high, or else low.
#[tactic(auto, unfolding(machine::specs::Interrupts::returned))]
pub fn returned(i: Interrupts) -> Interrupts
    ensures { result ≡ Interrupt.returned i }
{
    Interrupts {
        ie: i.ie,
        ip: i.ip,
        seen: i.seen,
        polled: i.polled,
        low: picked(i.high == 1, i.low, 0),
        high: 0,
    }
}
