// ln, e^, product and quotient of intervals for C. Whole intervals go in and come back; what an operation does not take is refused by
// `false`, and the lent numbers stay as they were.
#![tactic(auto)]

mod asked;

ghost use Rattle.std.specs.Prelude.{◌≡◌};
ghost use Rattle.enclosure_linked.specs.Intervals.{span_of, log_of};
ghost use Rattle.enclosure_linked.specs.Answers.{LnGiven, ExpoGiven, ProductGiven, QuotientGiven};

use fixed::Log;
use span::Span;

// The three numbers of a span, into the words that C lends.
fn lend(r: Span, lower: &mut u64, upper: &mut u64, exponent: &mut u32)
    ensures { span_of lower.new upper.new exponent.new ≡ r }
{
    *lower = r.lo;
    *upper = r.hi;
    *exponent = r.e;
}

// ln of the span from m·2^e to n·2^e.
#[unsafe(no_mangle)]
pub extern "C" fn enclosure_ln(m: u64, n: u64, e: u32, lower: &mut i64, upper: &mut i64) -> bool
    ensures { LnGiven (span_of m n e) (log_of lower.old upper.old) (log_of lower.new upper.new) result }
{
    let t = Span { lo: m, hi: n, e };
    if !asked::loggable(t) {
        return false;
    }
    let r = enclosure::ln(t);
    *lower = r.lo;
    *upper = r.hi;
    true
}

// e^ of the numbers from y to z, in 2^-30.
#[unsafe(no_mangle)]
pub extern "C" fn enclosure_expo(
    y: i64,
    z: i64,
    lower: &mut u64,
    upper: &mut u64,
    exponent: &mut u32,
) -> bool
    ensures { ExpoGiven (log_of y z) (span_of lower.old upper.old exponent.old) (span_of lower.new upper.new exponent.new) result }
{
    let t = Log { lo: y, hi: z };
    if !asked::exponent(t) {
        return false;
    }
    lend(enclosure::expo(t), lower, upper, exponent);
    true
}

// The product of the spans from m·2^e to n·2^e and from p·2^f to q·2^f.
#[unsafe(no_mangle)]
pub extern "C" fn enclosure_mul(
    m: u64,
    n: u64,
    e: u32,
    p: u64,
    q: u64,
    f: u32,
    lower: &mut u64,
    upper: &mut u64,
    exponent: &mut u32,
) -> bool
    ensures { ProductGiven (span_of m n e) (span_of p q f) (span_of lower.old upper.old exponent.old) (span_of lower.new upper.new exponent.new) result }
{
    let a = Span { lo: m, hi: n, e };
    let b = Span { lo: p, hi: q, e: f };
    if !asked::factors(a, b) {
        return false;
    }
    lend(span::mul(a, b), lower, upper, exponent);
    true
}

// Their quotient: an exported name of its own, with a test of its own.
#[unsafe(no_mangle)]
pub extern "C" fn enclosure_quo(
    m: u64,
    n: u64,
    e: u32,
    p: u64,
    q: u64,
    f: u32,
    lower: &mut u64,
    upper: &mut u64,
    exponent: &mut u32,
) -> bool
    ensures { QuotientGiven (span_of m n e) (span_of p q f) (span_of lower.old upper.old exponent.old) (span_of lower.new upper.new exponent.new) result }
{
    let a = Span { lo: m, hi: n, e };
    let b = Span { lo: p, hi: q, e: f };
    if !asked::divisible(a, b) {
        return false;
    }
    lend(span::quo(a, b), lower, upper, exponent);
    true
}
