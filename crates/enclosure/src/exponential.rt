// e^ at a point: a number is cut into hexadecimal digits, each has its table, and the rest is a short series.
ghost use Rattle.std.specs.Prelude.{◌*◌, ◌^◌, ◌≤◌, ◌<◌};
ghost use Rattle.exact.specs.Fraction.{whole};
ghost use Rattle.span.specs.Spans.{Normal};
ghost use Rattle.fixed.specs.Logs.{up, dn};
ghost use Rattle.enclosure.specs.ExpSteps.{binary, spare, ExpIn, ExpAt, Lowered};

use crate::tables;
use span::Span;

// e^(r / 2^30) for a rest below 2^-8: 1 + y + y²/2, rounded downward, and 12 units above it.
fn rest(r: u64) -> Span
    requires { r < 2 ^ 22 }
    ensures { ExpIn spare 3 12 994 (binary r 30) result }
{
    let lo = 1073741824 + r + r * r / 2147483648;
    Span {
        lo,
        hi: lo + 12,
        e: 994,
    }
}

// e^n for a whole number.
fn whole_part(n: u64) -> Span
    requires { n < 512 }
    ensures { ExpIn (whole 1) 10900 4 1732 (whole n) result }
{
    let a = tables::entry(&tables::SIXTEENS, n / 16);
    let b = tables::entry(&tables::ONES, n % 16);
    span::mul(a, b)
}

// e^(z / 2^30) below 1: two digits and the rest.
fn part(z: u64) -> Span
    requires { z < 2 ^ 30 }
    ensures { ExpIn spare 403 18 999 (binary z 30) result }
{
    let a = tables::entry(&tables::SIXTEENTHS, z / 67108864);
    let b = tables::entry(&tables::SMALL, z / 4194304 % 16);
    let c = rest(z % 4194304);
    let d = span::mul(a, b);
    span::mul(d, c)
}

// e^(y / 2^30).
fn positive(y: u64) -> Span
    requires { y < 512 * 2 ^ 30 }
    ensures { ExpIn spare 11303 24 1739 (binary y 30) result }
{
    span::mul(whole_part(y / 1073741824), part(y % 1073741824))
}

// e^(-y / 2^30).
fn negative(y: u64) -> Span
    requires { (0 < y) × (y < 512 * 2 ^ 30) }
    ensures { ExpAt 0 y result }
{
    span::quo(Span::ONE, positive(y))
}

// The span x with its lower end moved down to e^-δ of it, δ = d / 2^30.
pub(crate) fn lowered(x: Span, d: u64) -> Span
    requires normal { Normal x }
    requires bound { (2 ^ 29 ≤ x.lo) × (d ≤ 2 ^ 28) }
    ensures { Lowered x d result }
{
    let share = x.lo * d / 1073741824;
    Span {
        lo: x.lo - (share + 1),
        ..x
    }
}

// e^(y / 2^30), on both sides of 0.
pub(crate) fn point(y: i64) -> Span
    requires { (up y < 512 * 2 ^ 30) × (dn y < 512 * 2 ^ 30) }
    ensures { ExpAt (up y) (dn y) result }
{
    let size = y.unsigned_abs();
    if y >= 0 {
        positive(size)
    } else {
        negative(size)
    }
}
