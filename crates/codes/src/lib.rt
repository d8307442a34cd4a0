// Codes in and numbers out, as code: whether a request's code is that of a call, and whether the call needs a snapshot; the number and the value of an answer.
// It promises: each function computes the definition of `interface` that it is named after.
// It stands on `interface`, whose definitions it computes.
#![tactic(auto)]

ghost use Rattle.std.specs.Prelude.{◌≡◌};
ghost use Rattle.interface.specs.Answers.{refusal_number, number_of, value_of};
ghost use Rattle.interface.specs.Requests.{is_call, needs_snapshot};

use interface::{Answer, Refusal, Request};

// Whether its code is that of a call: else row 2, "call code not 1 to 10".
pub fn is_call(q: Request) -> bool
    ensures { result ≡ is_call q }
{
    (Request::OPEN <= q.code) & (q.code <= Request::LAST_CALL)
}

// Whether it is refused without a snapshot: row 8, "rewind without a snapshot", and call 10.
pub fn needs_snapshot(q: Request) -> bool
    ensures { result ≡ needs_snapshot q }
{
    (q.code == Request::REWIND) | (q.code == Request::COMPARE)
}

// The number that is printed: 0, or the refusal's.
pub fn number(answer: Answer) -> u8
    ensures { result ≡ number_of answer }
{
    match answer {
        Ok(_) => 0,
        Err(why) => refusal_number(why),
    }
}

// The value that is printed: "A refusal answers its number and value 0".
pub fn value(answer: Answer) -> u32
    ensures { result ≡ value_of answer }
{
    match answer {
        Ok(v) => v,
        Err(_) => 0,
    }
}

// The refusal's number in document 01.
pub fn refusal_number(why: Refusal) -> u8
    ensures { result ≡ refusal_number why }
{
    why as u8
}
