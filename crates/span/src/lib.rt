// Positive intervals on machine words: two mantissas, one biased exponent, every rounding outward.
// All operations are exact u64 arithmetic followed by `cut`, the one place that rounds.
// They are functions by name, not operators: each asks something else of its spans, and a formula is read call by call beside its proof.
#![tactic(auto)]

ghost use Rattle.std.specs.Prelude.{◌≡◌, ◌^◌, ◌≤◌, ◌<◌};
ghost use Rattle.span.specs.Spans.{Normal, Whole, FractionOf, Factors, Product, Divisible, DivisibleBy, Quotient, WholeQuotient, Summands, Sum, Floor, Ceiling, Subtractable, Difference, Smaller, below};
ghost use Rattle.span.specs.Rounding.{Cuttable, Roundable, Rounded, Aligned, ShiftedDown, ShiftedUp, Ratio, Compared};

// The numbers from lo·2^e / 2^1024 to hi·2^e / 2^1024.
// No invariant asks that it is normal: the laws of `specs/` hold of every span, and `enclosure_linked` tests what C hands it as one.
#[derive(Clone, Copy)]
pub struct Span {
    pub lo: u64,
    pub hi: u64,
    pub e: u32,
}

impl Span {
    // The number 1 and no other.
    pub const ONE: Span = Span {
        lo: 1073741824,
        hi: 1073741824,
        e: 994,
    };
}

// The exact interval from lo·2^e to hi·2^e without its last s bits, rounded outward: the floor and the ceiling.
fn cut(lo: u64, hi: u64, e: u32, s: u32) -> Span
    requires { Cuttable lo hi e s }
    ensures { Rounded lo hi e result }
{
    Span {
        lo: lo >> s,
        hi: ((hi - 1) >> s) + 1,
        e: e + s,
    }
}

// The exact interval with an upper end of any length, to mantissas of 31 bits.
fn norm(lo: u64, hi: u64, e: u32) -> Span
    requires { Roundable lo hi e }
    ensures { Rounded lo hi e result }
{
    let zeros = hi.leading_zeros();
    if zeros >= 33 {
        let s = zeros - 33;
        Span {
            lo: lo << s,
            hi: hi << s,
            e: e - s,
        }
    } else {
        cut(lo, hi, e, 33 - zeros)
    }
}

// A whole number above 0.
pub fn whole(n: u64) -> Span
    requires { 0 < n }
    ensures { Whole n result }
{
    norm(n, n, 1024)
}

// The fraction n / d of whole numbers above 0.
pub fn fraction(n: u64, d: u64) -> Span
    requires { (0 < n) × (0 < d) }
    ensures { FractionOf n d result }
{
    quo(whole(n), whole(d))
}

// The product. The highest bit of its upper end is bit 60 or 61, or 62 at 2^31 by 2^31: a shift tells which.
pub fn mul(a: Span, b: Span) -> Span
    requires { Factors a b }
    ensures { Product a b result }
{
    let hi = a.hi * b.hi;
    let more = (hi >> 61) as u32;
    cut(a.lo * b.lo, hi, a.e + b.e - 1024, 30 + more)
}

// The quotient. A multiplication stands for the shift: no bit is lost, and omega reads it.
pub fn quo(a: Span, b: Span) -> Span
    requires { Divisible a b }
    ensures { Quotient a b result }
{
    let lo = a.lo * 0x1_0000_0000 / b.hi;
    let hi = (a.hi * 0x1_0000_0000).div_ceil(b.lo);
    norm(lo, hi, a.e + 992 - b.e)
}

// The quotient by a whole number above 0 that mostly is `usual`: where a caller writes that as a constant, nothing is divided by it at run time.
pub fn quo_whole(a: Span, n: u64, usual: u64) -> Span
    requires { DivisibleBy a n }
    ensures { WholeQuotient a n result }
{
    if n == usual {
        quo(a, whole(usual))
    } else {
        quo(a, whole(n))
    }
}

// m / 2^d, rounded downward, for every d.
fn shr_down(m: u64, d: u32) -> u64
    requires { m < 2 ^ 32 }
    ensures { ShiftedDown m d result }
{
    m.checked_shr(d).unwrap_or(0)
}

// m / 2^d, rounded upward, for every d.
fn shr_up(m: u64, d: u32) -> u64
    requires { (0 < m) × (m < 2 ^ 32) }
    ensures { ShiftedUp m d result }
{
    shr_down(m - 1, d) + 1
}

// The sum; the first has the greater exponent.
fn add_aligned(a: Span, b: Span) -> Span
    requires { Aligned a b }
    ensures { Sum a b result }
{
    let d = a.e - b.e;
    let down = shr_down(b.lo, d);
    let up = shr_up(b.hi, d);
    let hi = a.hi + up;
    let s = (hi >> 31) as u32;
    cut(a.lo + down, hi, a.e, s)
}

// The sum.
pub fn add(a: Span, b: Span) -> Span
    requires { Summands a b }
    ensures { Sum a b result }
{
    if a.e < b.e {
        add_aligned(b, a)
    } else {
        add_aligned(a, b)
    }
}

// The whole part of the lower end, of a span whose upper end is at most 2^31.
pub fn floor_int(a: Span) -> u64
    requires { (Normal a) × (a.e ≤ 1024) }
    ensures { Floor a result }
{
    shr_down(a.lo, 1024 - a.e)
}

// The least whole number from the upper end up.
pub fn ceil_int(a: Span) -> u64
    requires { (Normal a) × (a.e ≤ 1024) }
    ensures { Ceiling a result }
{
    shr_up(a.hi, 1024 - a.e)
}

// The difference, of a number and one that is at most three quarters of it.
pub fn sub(a: Span, b: Span) -> Span
    requires { Subtractable a b }
    ensures { Difference a b result }
{
    let d = a.e - b.e;
    let down = shr_down(b.lo, d);
    let up = shr_up(b.hi, d);
    norm(a.lo - up, a.hi - down, a.e)
}

// 2^d, or 4 where that is more: enough to compare mantissas of 31 bits.
fn ratio(d: u32) -> u64
    ensures { Ratio d result }
{
    match d {
        0 => 1,
        1 => 2,
        _ => 4,
    }
}

// The smaller of two; the first has the greater exponent. Nothing is rounded.
fn lesser_aligned(a: Span, b: Span) -> Span
    requires { Compared a b }
    ensures { Smaller a b result }
{
    let k = ratio(a.e - b.e);
    Span {
        lo: b.lo.min(a.lo * k),
        hi: b.hi.min(a.hi * k),
        e: b.e,
    }
}

// The smaller of two.
pub fn lesser(a: Span, b: Span) -> Span
    requires { (Normal a) × (Normal b) }
    ensures { Smaller a b result }
{
    if a.e < b.e {
        lesser_aligned(b, a)
    } else {
        lesser_aligned(a, b)
    }
}

// Whether a lies wholly below b. Where a has the greater exponent its upper end, of 31 bits, is not below b's lower end.
pub fn is_below(a: Span, b: Span) -> bool
    requires { (Normal a) × (Normal b) }
    ensures { result ≡ below a b }
{
    a.e <= b.e && shr_down(a.hi, b.e - a.e) < b.lo
}
