// The refusals by their numbers, as document 01's table has them, and document 02's requests after it. Number 9 is retired and is not used
// again: no cycle of an accepted device can meet it (proofs/Rollovers.antt).

ghost use Rattle.std.specs.Prelude.{◌≡◌};
ghost use Rattle.machine.specs.Outcomes.{number, code_of};

#[derive(Clone, Copy, Debug, PartialEq, Eq, PartialOrd, Ord)]
pub enum Refusal {
    BadRecord = 1,
    BadKind = 2,
    BadAddress = 3,
    BadPins = 4,
    TooLong = 5,
    NothingOffered = 6,
    NothingInService = 7,
    EmptyEntry = 8,
    PoweredDown = 10,
    // Of the 82C53 (request Three): a mode other than 0 and 2; counter choice 3, an address above 3 or a read at 3; a BCD digit above
    // nine or a mode 2 count of 1.
    BadMode = 11,
    BadChoice = 12,
    BadCount = 13,
    // Of the speed finder (request Four): a crystal, rate or tolerance outside its limits.
    BadSpeed = 14,
    // Of a checkpoint (request Eight): a file cut short or with bytes left over, a buffer of another length; a wrong count or address; a
    // value that BadRecord would refuse, an ever byte above 1 or a received byte that disagrees.
    BadLength = 15,
    BadLayout = 16,
    BadValue = 17,
    // Of the shares of a time slice (request Ten): zero or more than 64 tunnels, an output of another length; the slice or a wish above
    // 2^40.
    BadTunnels = 18,
    BadWish = 19,
}

impl Refusal {
    // Its number, for C and for what is written down.
    pub fn number(self) -> u8
        ensures { result ≡ number self }
    {
        self as u8
    }
}

// 0, or the number of the refusal: of a call that gives nothing else.
pub fn code_of(outcome: Result<(), Refusal>) -> u8
    ensures { result ≡ code_of outcome }
{
    match outcome {
        Ok(()) => 0,
        Err(e) => e.number(),
    }
}
