// A file of a device's values: what writes one, part by part, and what reads one, from the front. specs/Checkpoint.antt of `machine`
// says what a file and a reading are.
#![tactic(auto)]

ghost use Rattle.std.specs.Prelude.{◌≡◌, ◌⊎◌, ◌<◌, ◌≤◌, length, drop, replicate, IfOk};
ghost use Rattle.machine.specs.Checkpoint as Checkpoint;
ghost use Rattle.machine.specs.Checkpoint.{places};
ghost use Rattle.machine.specs.Checkpoint.Reading.{reading};
ghost use Rattle.layout.specs.Order.{length_of, place_of};
ghost use Rattle.checkpoint.specs.Reads.{taken_by, fault_of, state_of};

use machine::Part;
use machine::refusals::Refusal;
use values::{PLACES, RECEIVED, SBUF};

// A reading so far: the next byte's place in the file, and the values, 0 where none is read yet.
#[derive(Clone, Copy)]
pub struct Reading {
    pub at: usize,
    pub values: [u64; PLACES],
}

// A value that was read: number 1 would not refuse the values so far, and the received byte equals the SBUF entry.
fn holds(kind: u8, place: usize, v: [u64; PLACES]) -> bool
    ensures { result ≡ Checkpoint.holds kind place v }
{
    if values::narrow(v) {
        let d = values::device_of(kind, v);
        record::accepts(d) & ((place != RECEIVED) | (v[RECEIVED] == v[SBUF]))
    } else {
        false
    }
}

// The number of a part in the file of these values. A part is data of the definitions, so its place has no range in its type.
fn number_at(v: [u64; PLACES], p: Part) -> u64
    requires { place_of p < places }
    ensures { result ≡ Checkpoint.number_at v p }
{
    match p {
        Part::Mark(m) => u64::from(m),
        Part::Value { place, .. } => v[place],
    }
}

// The file of these values, into a buffer of its length.
pub fn write(kind: u8, v: [u64; PLACES], buffer: &mut [u8])
    requires { ((kind ≡ 51) ⊎ (kind ≡ 52)) × (length buffer.old ≡ length_of kind) }
    ensures { buffer.new ≡ Checkpoint.written (Checkpoint.layout kind) v }
{
    let mut at = 0;
    for n in 0..layout::parts(kind) {
        let p = layout::part(kind, n);
        let width = layout::width_of(p);
        layout::put(&mut buffer[at..at + width], number_at(v, p));
        at += width;
    }
}

// The values once a part is read.
#[tactic(auto, unfolding(crate::specs::Reads::taken_by))]
fn taken(p: Part, n: u64, v: [u64; PLACES]) -> [u64; PLACES]
    requires { place_of p < places }
    ensures { result ≡ taken_by p n v }
{
    match p {
        Part::Mark(_) => v,
        Part::Value { place, .. } => {
            let mut w = v;
            w[place] = n;
            w
        }
    }
}

// What is wrong with a part that is read: a wrong count or address, or a value that does not hold.
#[tactic(auto, unfolding(crate::specs::Reads::fault_of))]
fn fault(kind: u8, p: Part, n: u64, v: [u64; PLACES]) -> Result<(), Refusal>
    ensures { result ≡ fault_of kind p n v }
{
    let (right, refusal) = match p {
        Part::Mark(m) => (n == u64::from(m), Refusal::BadLayout),
        Part::Value { place, .. } => (holds(kind, place, v), Refusal::BadValue),
    };
    if right { Ok(()) } else { Err(refusal) }
}

// A part, as soon as it is whole.
fn read_part(kind: u8, file: &[u8], p: Part, r: Reading) -> Result<Reading, Refusal>
    requires { (place_of p < places) × ((Checkpoint.width_of p ≤ 8) × (r.at ≤ length file.now)) }
    ensures { (state_of file.now result ≡ Checkpoint.read_part kind p (reading r.values (drop r.at file.now))) × IfOk result (λ next. next.at ≤ length file.now) }
{
    let width = layout::width_of(p);
    if file.len() - r.at < width {
        return Err(Refusal::BadLength);
    }
    let n = layout::number(&file[r.at..r.at + width]);
    let values = taken(p, n, r.values);
    fault(kind, p, n, values)?;
    Ok(Reading {
        at: r.at + width,
        values,
    })
}

// The kind that a file is read as, by its register count.
pub fn kind_in(file: &[u8]) -> u8
    ensures { result ≡ Checkpoint.kind_in file.now }
{
    if file.first() == Some(&layout::COUNT_51) {
        51
    } else {
        52
    }
}

// A file, part by part from the front, up to the first fault. What is left over is not judged here.
pub fn read(kind: u8, file: &[u8]) -> Result<Reading, Refusal>
    requires { (kind ≡ 51) ⊎ (kind ≡ 52) }
    ensures { (state_of file.now result ≡ Checkpoint.read_parts kind (Checkpoint.layout kind) (reading (replicate places 0) file.now)) × IfOk result (λ r. r.at ≤ length file.now) }
{
    let mut r = Reading {
        at: 0,
        values: [0; PLACES],
    };
    for n in 0..layout::parts(kind) {
        r = read_part(kind, file, layout::part(kind, n), r)?;
    }
    Ok(r)
}
