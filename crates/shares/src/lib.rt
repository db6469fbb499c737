// The shares of a time slice: each tunnel's first part, and what is over from the first tunnel on. One pass over the wishes for what is
// over, one that writes the shares.
#![tactic(auto)]

ghost use Rattle.std.specs.Prelude.{◌≡◌, ◌-◌, length};
ghost use Rattle.machine.specs.Outcomes.{code_of};
ghost use Rattle.slices.specs.Shares as Slice;

use machine::LONGEST;
use machine::refusals::Refusal;
use slices::TUNNELS;

// Is each wish within the limit?
fn wishes_ok(wishes: &[u64]) -> bool
    ensures { result ≡ Slice.wishes_ok wishes.now }
{
    wishes.iter().all(|wish| *wish <= LONGEST)
}

// What is over once each tunnel has its first part.
fn over_of(b: u64, part: u64, wishes: &[u64]) -> u64
    ensures { result ≡ b - Slice.total (Slice.first_parts part wishes.now) }
{
    wishes
        .iter()
        .fold(b, |over, wish| over.saturating_sub((*wish).min(part)))
}

// Each share: the first part, and from what is over as much as the tunnel lacks.
fn go_round(part: u64, over: u64, wishes: &[u64], output: &mut [u64])
    requires { length output.old ≡ length wishes.now }
    ensures { output.new ≡ Slice.goes_round part over wishes.now }
{
    let mut left = over;
    for (i, &wish) in wishes.iter().enumerate() {
        let first = wish.min(part);
        let more = (wish - first).min(left);
        output[i] = first + more;
        left -= more;
    }
}

// The share of each tunnel in a slice of b cycles, into an output with a place for each. A refused call leaves the output untouched.
#[tactic(auto, unfolding(slices::specs::Shares::tunnels_ok, slices::specs::Shares::slice_ok, slices::specs::Shares::shares_of, slices::specs::Shares::shares_fault, slices::specs::Shares::shares_answer))]
pub fn shares(b: u64, wishes: &[u64], output: &mut [u64]) -> Result<(), Refusal>
    ensures { (code_of result ≡ (Slice.shares_answer b wishes.now output.old).code) × (output.new ≡ (Slice.shares_answer b wishes.now output.old).output) }
{
    let n = wishes.len();
    if !(1..=TUNNELS).contains(&n) || output.len() != n {
        return Err(Refusal::BadTunnels);
    }
    if b > LONGEST || !wishes_ok(wishes) {
        return Err(Refusal::BadWish);
    }
    let part = b / n as u64;
    go_round(part, over_of(b, part, wishes), wishes, output);
    Ok(())
}
