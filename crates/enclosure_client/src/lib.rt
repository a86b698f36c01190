// The library used from its promises alone: ln 3, e^206 and e^-59, enclosed to 2^-24.
#![tactic(auto)]

ghost use Rattle.enclosure_client.specs.Known.{Ln3, Power};

use fixed::Log;
use span::Span;

// ln 3
pub fn ln_3() -> Log
    ensures { Ln3 result }
{
    enclosure::ln(span::whole(3))
}

// The two powers are examples, each written as a caller writes it: one function of the exponent would hide the call.
const HIGH: Log = Log {
    lo: 206 << 30,
    hi: 206 << 30,
};

// e^206
pub fn e_206() -> Span
    ensures { Power 206 0 result }
{
    enclosure::expo(HIGH)
}

const LOW: Log = Log {
    lo: -59 << 30,
    hi: -59 << 30,
};

// e^-59
pub fn e_minus_59() -> Span
    ensures { Power 0 59 result }
{
    enclosure::expo(LOW)
}
