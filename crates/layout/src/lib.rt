// The layout of a checkpoint, which what writes a file and what reads one go over part by part: the parts by their numbers, from the
// front; and a number as bytes, low first. specs/Checkpoint.antt of `machine` has the layout as a list.
#![tactic(auto)]

ghost use Rattle.std.specs.Prelude.{◌≡◌, ◌<◌, ◌≤◌, length};
ghost use Rattle.machine.specs.Checkpoint.{bytes_of, number_of, width_of};
ghost use Rattle.layout.specs.Order.{register_count, register_part, number_part, time_part, part_count, part_at, length_of};

use machine::Part;

// The registers of each kind, by whose count a file says its kind.
pub const COUNT_51: u8 = 11;

const COUNT_52: u8 = 16;

fn count(kind: u8) -> u8
    ensures { result ≡ register_count kind }
{
    laws::picked(kind == 51, COUNT_51, COUNT_52)
}

// The bytes of a file: two for each register, and 275 others.
pub fn length(kind: u8) -> usize
    ensures { result ≡ length_of kind }
{
    2 * usize::from(count(kind)) + 275
}

// The entries of the first section: an address, and a register in one byte.
#[tactic(auto, unfolding(crate::specs::Order::register_part))]
fn register_part(n: usize) -> Part
    requires { n < 32 }
    ensures { result ≡ register_part n }
{
    let place = n / 2;
    if n % 2 == 0 {
        let row = registers::row(place);
        Part::Mark(row[0])
    } else {
        Part::Value { place, width: 1 }
    }
}

// The second section: its count; hidden fields and saved levels, in eight bytes each.
#[tactic(auto, unfolding(crate::specs::Order::number_part))]
fn number_part(n: usize) -> Part
    requires { n < 26 }
    ensures { result ≡ number_part n }
{
    if n == 0 {
        Part::Mark(25)
    } else {
        Part::Value {
            place: 15 + n,
            width: 8,
        }
    }
}

// The third: its count; of each flag ever in one byte, and the number in eight.
#[tactic(auto, unfolding(crate::specs::Order::time_part))]
fn time_part(n: usize) -> Part
    requires { n < 17 }
    ensures { result ≡ time_part n }
{
    if n == 0 {
        Part::Mark(8)
    } else {
        Part::Value {
            place: 40 + n,
            width: if n % 2 == 1 { 1 } else { 8 },
        }
    }
}

// How many parts there are: the first section has two for each register.
pub fn parts(kind: u8) -> usize
    ensures { result ≡ part_count kind }
{
    2 * usize::from(count(kind)) + 44
}

// A part.
#[tactic(auto, unfolding(crate::specs::Order::part_at))]
pub fn part(kind: u8, n: usize) -> Part
    requires { n < part_count kind }
    ensures { result ≡ part_at kind n }
{
    let registers = count(kind);
    if n == 0 {
        return Part::Mark(registers);
    }
    let second = 2 * usize::from(registers) + 1;
    if n < second {
        return register_part(n - 1);
    }
    let third = second + 26;
    if n < third {
        return number_part(n - second);
    }
    time_part(n - third)
}

// The bytes of a part.
pub fn width_of(p: Part) -> usize
    ensures { result ≡ width_of p }
{
    match p {
        Part::Mark(_) => 1,
        Part::Value { width, .. } => width,
    }
}

// The number of bytes that stand low first.
pub fn number(bytes: &[u8]) -> u64
    requires { length bytes.now ≤ 8 }
    ensures { result ≡ number_of bytes.now }
{
    let mut n = 0;
    for byte in bytes.iter().rev() {
        n = n * 256 + u64::from(*byte);
    }
    n
}

// A number as so many bytes, low first.
pub fn put(bytes: &mut [u8], n: u64)
    ensures { bytes.new ≡ bytes_of (length bytes.old) n }
{
    let mut left = n;
    for byte in bytes {
        *byte = (left % 256) as u8;
        left /= 256;
    }
}
