// One machine cycle: steps 1 to 8 over the parts, on a record that the record check accepts.
#![tactic(auto)]

ghost use Rattle.std.specs.Prelude.{◌≡◌, ◌<◌, true};
ghost use Rattle.machine.specs.Bits.{bit};
ghost use Rattle.machine.specs.Record.{accepted, pins_of, levels_of, levels_ok};
ghost use Rattle.machine.specs.Cycle as Rule;
ghost use Rattle.machine.specs.Totals.{added, by_timer};
ghost use Rattle.machine.specs.Flags.{risen};
ghost use Rattle.machine.specs.Times.{times_after};
ghost use Rattle.flags.specs.Registers.{flags_in};
ghost use Rattle.totals.specs.Fit.{Low};

use flags::FlagRegisters;
use machine::places::{ET2, IE0, IE1, INT0, INT1, IT0, IT1, RXD, T0, T1, T2, T2EX};
use machine::{Counted, Device, FlagTimes, Interrupts, Overflows, Ticks, Timer2, Timers, Totals};
use std::array;

// The pin byte as the kind takes it: kind 51 takes T2 and T2EX as 1.
#[tactic(auto, using(crate::proofs::Levels::t2_set, crate::proofs::Levels::t2ex_set), unfolding(machine::specs::Record::pins_of))]
pub fn pins_of(kind: u8, pins: u8) -> u8
    ensures { result ≡ pins_of kind pins }
{
    laws::picked(kind == 51, (pins | (1 << T2)) | (1 << T2EX), pins)
}

// The level of a pin.
#[tactic(auto, using(laws::proofs::Bits::and_one))]
fn level(pins: u8, pin: u8) -> u8
    requires { pin < 8 }
    ensures { result ≡ bit pin pins }
{
    (pins >> pin) & 1
}

// The seven levels of a pin byte, from RXD up.
#[tactic(auto, unfolding(machine::specs::Record::levels_of))]
pub fn levels_of(pins: u8) -> [u8; 7]
    ensures { result ≡ levels_of pins }
{
    array::from_fn(|pin| level(pins, pin as u8))
}

// The saved levels, each 0 or 1.
#[derive(Clone, Copy)]
struct SavedLevels {
    at: [u8; 7],
    ghost bits: { levels_ok at ≡ true },
}

impl SavedLevels {
    // 1 where a pin's saved level is 1 and its level now 0.
    #[tactic(auto, using(crate::proofs::Levels::falls_is))]
    fn falls(self, pins: u8, pin: u8) -> u8
        requires { pin < 7 }
        ensures { result ≡ Rule.falls self.at pins pin }
    {
        self.at[pin as usize] & !(pins >> pin)
    }
}

// Steps 6 and 7 of Timers 0 and 1.
#[tactic(auto, unfolding(machine::specs::Cycle::timers_after, machine::specs::Cycle::externals))]
fn timers_after(saved: SavedLevels, pins: u8, t: Timers) -> Timers
    ensures { result ≡ Rule.timers_after saved.at pins t }
{
    let fell0 = saved.falls(pins, INT0);
    let fell1 = saved.falls(pins, INT1);
    let tcon = interrupts::external(IT0, IE0, fell0, level(pins, INT0), t.tcon);
    Timers {
        tcon: interrupts::external(IT1, IE1, fell1, level(pins, INT1), tcon),
        due0: saved.falls(pins, T0),
        due1: saved.falls(pins, T1),
        ..t
    }
}

// Step 7 of Timer 2.
#[tactic(auto, unfolding(machine::specs::Cycle::timer2_after))]
fn timer2_after(saved: SavedLevels, pins: u8, t: Timer2) -> Timer2
    ensures { result ≡ Rule.timer2_after saved.at pins t }
{
    Timer2 {
        due2: saved.falls(pins, T2),
        ..t
    }
}

// Step 4, with the overflows of Timers 1 and 2.
#[tactic(auto, unfolding(machine::specs::Cycle::ticks_in))]
fn ticks_in(d: Device, c: Counted) -> Ticks
    ensures { result ≡ Rule.ticks_in d c }
{
    ticks::serial_ticks(
        d.pcon,
        d.timer2.t2con,
        d.serial,
        c.timers.overflow1,
        c.timer2.overflows,
    )
}

// The overflows of a cycle with these counts.
fn overflows_of(c: Counted) -> Overflows
    ensures { result ≡ Rule.overflows_of c }
{
    Overflows {
        timer0: c.timers.overflow0,
        th0: c.timers.overflow_th0,
        timer1: c.timers.overflow1,
        timer2: c.timer2.overflows,
    }
}

// Cycles in a row: the overflows in them, added up, and the device after them.
#[derive(Clone, Copy)]
pub struct Run {
    pub totals: Totals,
    pub device: Device,
}

// The times after a cycle with these flags before and after it: that of a flag that rises, if one does.
#[tactic(auto, using(laws::proofs::Flags::times_stay), unfolding(machine::specs::Flags::any_rises))]
fn times_after(before: FlagRegisters, after: FlagRegisters, number: u64, t: FlagTimes) -> FlagTimes
    ensures { result ≡ times_after number (risen (flags_in before) (flags_in after)) t }
{
    if flags::any_rises(before, after) {
        flags::times_after(before, after, number, t)
    } else {
        t
    }
}

// One cycle more, steps 1 to 8, with the pin byte as the kind takes it, and then the times of the flags that rise in it, if one does.
#[tactic(auto, using(crate::proofs::Keeps::accepted_levels, crate::proofs::Keeps::ticks_ok, crate::proofs::Levels::level_is), unfolding(machine::specs::Cycle::counted, machine::specs::Cycle::steps, machine::specs::Flags::flags))]
pub fn cycle_once(run: Run, pins: u8) -> Run
    requires { (accepted run.device ≡ true) × Low run.totals }
    ensures { (result.totals ≡ added run.totals (by_timer (Rule.overflows_of (Rule.counted run.device pins)))) × (result.device ≡ Rule.steps run.device pins) }
{
    let d = run.device;
    let saved = SavedLevels { at: d.levels };
    let c = Counted {
        timers: timers::timers_step(d.timers, pins),
        timer2: timer2::timer2_step(d.timer2, saved.falls(pins, T2EX)),
    };
    let sum = totals::added(run.totals, totals::by_timer(overflows_of(c)));
    let s = serial::serial_step(ticks_in(d, c), level(pins, RXD) == 1, d.serial);
    let t = timers_after(saved, pins, c.timers.timers);
    let u = timer2_after(saved, pins, c.timer2.timer2);
    let number = d.cycle.wrapping_add(1);
    let before = FlagRegisters::of(&d);
    let after = FlagRegisters {
        tcon: t.tcon,
        scon: s.scon,
        t2con: u.t2con,
    };
    Run {
        totals: sum,
        device: Device {
            timers: t,
            timer2: u,
            serial: s,
            interrupts: Interrupts {
                polled: laws::flagged(ET2, c.timer2.tf2, d.interrupts.seen),
                seen: interrupts::seen_of(t.tcon, s.scon, u.t2con),
                ..d.interrupts
            },
            levels: levels_of(pins),
            cycle: number,
            times: times_after(before, after, number, d.times),
            ..d
        },
    }
}
