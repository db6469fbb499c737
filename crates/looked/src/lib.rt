// What a look ahead and a wake look answer, as numbers for C.
#![tactic(auto)]

ghost use Rattle.std.specs.Prelude.{◌≡◌};
ghost use Rattle.looked.specs.Looked.{look_numbered, looked_of};

// A look's code, 1 where it finds what it looks for, and the cycle in which a flag first rises, or after which an interrupt is first
// offered. C has no Result: 0 or the number, and zeros.
#[repr(C)]
#[derive(Clone, Copy)]
pub struct LookedAnswer {
    pub code: u8,
    pub found: u8,
    pub at: u64,
}

// What a look gives, for C: a refused one its number, whatever it is, and zeros.
pub fn looked(a: Result<Option<u64>, u8>) -> LookedAnswer
    ensures { result ≡ looked_of (look_numbered a) }
{
    match a {
        Err(code) => LookedAnswer {
            code,
            found: 0,
            at: 0,
        },
        Ok(Some(n)) => LookedAnswer {
            code: 0,
            found: 1,
            at: n,
        },
        Ok(None) => LookedAnswer {
            code: 0,
            found: 0,
            at: 0,
        },
    }
}
