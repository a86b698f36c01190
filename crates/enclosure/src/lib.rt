// ln, e^ and powers of intervals on machine words: a positive interval is a `Span`, a logarithm or exponent a `Log`.
#![tactic(auto)]

mod exponential;
mod logarithm;
mod tables;

ghost use Rattle.enclosure.specs.Promises.{Loggable, Logarithm, Exponent, Exponential, Powerable, SixthPower};

use fixed::Log;
use span::Span;

// ln of a span: at its upper end, and from there down to the lower end by no more than (hi - lo) / lo.
pub fn ln(t: Span) -> Log
    requires { Loggable t }
    ensures { Logarithm t result }
{
    let h = logarithm::point(t.hi, t.e);
    let w = logarithm::slack(t.lo, t.hi);
    let lo = logarithm::unbiased(h - (w + 1));
    let hi = logarithm::unbiased(h + 8);
    Log { lo, hi }
}

// e^ of an interval: at its upper end, and from there down to the lower.
pub fn expo(y: Log) -> Span
    requires { Exponent y }
    ensures { Exponential y result }
{
    let upper = exponential::point(y.hi);
    exponential::lowered(upper, (y.hi - y.lo) as u64)
}

// t^(p/6) = e^(p/6 ln t).
pub fn sixth_power(t: Span, p: u32) -> Span
    requires { Powerable t p }
    ensures { SixthPower t p result }
{
    expo(fixed::scaled::<6>(ln(t), p))
}
