// What a reload works on.
ghost use Rattle.std.specs.Prelude.{◌≤◌};

// The last line sample, the send counter and half, and of TL1 the counts before it reloads, in a whole lap and now.
#[derive(Clone, Copy)]
pub struct Lap {
    pub sample: u8,
    pub counter: u8,
    pub half: u8,
    pub full: u64,
    pub room: u64,
    ghost half_bit: { half ≤ 1 },
    ghost full_fits: { full ≤ 255 },
    ghost room_fits: { room ≤ 255 },
}
