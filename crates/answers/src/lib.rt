// The two tests of what a caller gives that need no device.
#![tactic(auto)]

ghost use Rattle.std.specs.Prelude.{◌≡◌};
ghost use Rattle.machine.specs.Record.{kind_ok, pins_ok};

// Kind 51 or 52.
pub fn kind_ok(kind: u8) -> bool
    ensures { result ≡ kind_ok kind }
{
    (kind == 51) | (kind == 52)
}

// Bit 7 of a pin byte is 0.
pub fn pins_ok(pins: u8) -> bool
    ensures { result ≡ pins_ok pins }
{
    pins < 128
}
