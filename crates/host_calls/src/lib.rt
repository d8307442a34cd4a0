// What a start and a call at a time are to a host that keeps the state as bytes beside its pool and table, and what it gets of them: definitions and theorems.
// The code is in `host_start` and `gazhuppin`; here is what a host asks, and what it is told, as both cross to C.
// It promises (specs/HostClaims) that calls in turn are a run of the machine, so that each demand is true of them, in bytes.
// It stands on `step` for the step, on `layout` for the bytes, on `codes` for numbers, and on `claims` and `consequences` for what is promised.
#![tactic(auto)]

ghost use Rattle.std.specs.Prelude.{◌≡◌};
ghost use Rattle.layout.specs.Layout.{state_size};
ghost use Rattle.host_calls.specs.Calls.{told_by, answer_told, request_in, no_state};

use interface::{Answer, Refusal, Request};
use layout::size::Size;

// How many bytes a host lends for the state.
pub fn state_bytes() -> usize
    ensures { result ≡ state_size }
{
    Size::STATE
}

// What a host asks: the seven numbers of a line.
#[repr(C)]
#[derive(Clone, Copy, Debug, PartialEq, Eq)]
pub struct Asked {
    pub code: u16,
    pub sandbox: u16,
    pub p1: u16,
    pub p2: u16,
    pub p3: u16,
    pub p4: u16,
    pub p5: u16,
}

impl Asked {
    // The request of these numbers.
    pub fn request(self) -> Request
        ensures { result ≡ request_in self }
    {
        Request {
            code: self.code,
            sandbox: self.sandbox,
            p1: self.p1,
            p2: self.p2,
            p3: self.p3,
            p4: self.p4,
            p5: self.p5,
        }
    }
}

// What a call answers, as a host sees it: the refusal's number or 0, and the value.
#[repr(C)]
#[derive(Clone, Copy, Debug, PartialEq, Eq)]
pub struct Told {
    pub number: u32,
    pub value: u32,
}

impl Told {
    // The number of row 3, "lent length wrong, or state unsound".
    pub const UNSOUND: u32 = 3;

    // An answer's number and value.
    pub fn by(answer: Answer) -> Told
        ensures { result ≡ told_by answer }
    {
        Told {
            number: u32::from(codes::number(answer)),
            value: codes::value(answer),
        }
    }

    // Where the bytes are no state's: row 2 where the code is no call's, else row 3.
    pub fn without_state(q: Request) -> Told
        ensures { answer_told result ≡ no_state q }
    {
        if !codes::is_call(q) {
            return Told::by(Err(Refusal::NoSuchCall));
        }
        Told::by(Err(Refusal::Unsound))
    }
}
