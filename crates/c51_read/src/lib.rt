// For C: a read of a device record passed by value, thin over `c51_access::read`; nothing is asked of the record. An export by itself,
// so that the compiler makes one function of it and all that it calls.
#![tactic(auto)]

ghost use Rattle.std.specs.Prelude.{◌≡◌};
ghost use Rattle.c51_read.specs.Value.{value_answer};

use machine::Device;

// A read's code and the register. C has no Result: 0 or the number, and zeros.
#[repr(C)]
#[derive(Clone, Copy)]
pub struct ValueAnswer {
    pub code: u8,
    pub value: u8,
}

// Read a register, for SBUF the received byte: 1, 3.
#[unsafe(no_mangle)]
#[tactic(auto, unfolding(crate::specs::Value::value_answer))]
pub extern "C" fn c51_read(d: Device, address: u8) -> ValueAnswer
    ensures { result ≡ value_answer d address }
{
    match c51_access::read(d, address) {
        Ok(value) => ValueAnswer { code: 0, value },
        Err(e) => ValueAnswer {
            code: e.number(),
            value: 0,
        },
    }
}
