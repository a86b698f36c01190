// Whether intervals are what an operation asks.
ghost use Rattle.span.specs.Spans.{Normal, Factors, Divisible};
ghost use Rattle.enclosure.specs.Promises.{Loggable, Exponent};
ghost use Rattle.enclosure_linked.specs.Answers.{Decides};

use fixed::Log;
use span::Span;

fn normal(a: Span) -> bool
    ensures { Decides (Normal a) result }
{
    1073741824 <= a.hi && a.hi <= 2147483648 && a.lo <= a.hi
}

pub(crate) fn loggable(t: Span) -> bool
    ensures { Decides (Loggable t) result }
{
    536870912 <= t.lo && t.e <= 2017 && normal(t)
}

pub(crate) fn factors(a: Span, b: Span) -> bool
    ensures { Decides (Factors a b) result }
{
    let e = u64::from(a.e) + u64::from(b.e);
    1055 <= e && e < 65536 && normal(a) && normal(b)
}

// A zero divisor fails here: its lower mantissa is below 2^29.
pub(crate) fn divisible(a: Span, b: Span) -> bool
    ensures { Decides (Divisible a b) result }
{
    536870912 <= b.lo && a.e < 32768 && b.e <= a.e + 961 && normal(a) && normal(b)
}

// From -512 to 512, no wider than a quarter.
pub(crate) fn exponent(y: Log) -> bool
    ensures { Decides (Exponent y) result }
{
    -549755813888 < y.lo && y.hi < 549755813888 && y.lo <= y.hi && y.hi - y.lo <= 268435456
}
