// Intervals of real numbers of either sign, in fixed point: both ends are i64 in units of 2^-30, the lower divided downward and the upper upward, around zero.
#![tactic(auto)]

ghost use Rattle.std.specs.Prelude.{◌≡◌, ◌^◌, ◌<◌};
ghost use Rattle.fixed.specs.Logs.{Small};
ghost use Rattle.fixed.specs.Promises.{Summands, LogSum, LogDifference, LogFactors, LogProduct, Scalable, Scaled};
ghost use Rattle.fixed.specs.ProductSteps.{Coarse, Mirror, Pairs, lowest_z};
ghost use Rattle.fixed.specs.Millis.{Countable, floor_milli, ceil_milli};

use std::ops::{Add, Mul, Neg, Sub};

// The numbers from lo / 2^30 to hi / 2^30. No invariant asks that lo is not above hi: the laws of `specs/` hold of every two words.
#[derive(Clone, Copy)]
pub struct Log {
    pub lo: i64,
    pub hi: i64,
}

impl Add for Log {
    type Output = Log;

    ghost can_add = { Summands };

    ghost add_gives = { LogSum };

    fn add(self, other: Log) -> Log {
        Log {
            lo: self.lo + other.lo,
            hi: self.hi + other.hi,
        }
    }
}

// The ends of what is taken away change places.
impl Sub for Log {
    type Output = Log;

    ghost can_sub = { Summands };

    ghost sub_gives = { LogDifference };

    fn sub(self, other: Log) -> Log {
        Log {
            lo: self.lo - other.hi,
            hi: self.hi - other.lo,
        }
    }
}

impl Neg for Log {
    type Output = Log;

    ghost can_neg = { λ a. Small a (2 ^ 33) };

    ghost neg_gives = { Mirror };

    fn neg(self) -> Log {
        Log {
            lo: -self.hi,
            hi: -self.lo,
        }
    }
}

// Over all pairs of ends. Factors in units of 2^-28 have products that fit; the greatest product is minus the least of -a and b.
impl Mul for Log {
    type Output = Log;

    ghost can_mul = { LogFactors };

    ghost mul_gives = { LogProduct };

    fn mul(self, other: Log) -> Log {
        let a = coarse(self);
        let b = coarse(other);
        Log {
            lo: lowest(a, b) >> 26,
            hi: -(lowest(-a, b) >> 26),
        }
    }
}

// a in units of 2^-28, outward.
fn coarse(a: Log) -> Log
    requires { Small a (2 ^ 33) }
    ensures { Coarse a result }
{
    Log {
        lo: a.lo >> 2,
        hi: -(-a.hi >> 2),
    }
}

// The least product of an end of a and an end of b.
fn lowest(a: Log, b: Log) -> i64
    requires { Pairs a b }
    ensures { result ≡ lowest_z a b }
{
    let of_lower = (a.lo * b.lo).min(a.lo * b.hi);
    let of_upper = (a.hi * b.lo).min(a.hi * b.hi);
    of_lower.min(of_upper)
}

// a p / D
pub fn scaled<const D: u32>(a: Log, p: u32) -> Log
    requires divisor { 0 < D }
    requires factors { Scalable p a }
    ensures { Scaled p D a result }
{
    let d = i64::from(D);
    let p = i64::from(p);
    Log {
        lo: (a.lo * p).div_euclid(d),
        hi: -(-(a.hi * p)).div_euclid(d),
    }
}

// The lower end in thousandths, rounded downward.
pub fn floor_milli(y: Log) -> i64
    requires { Countable y }
    ensures { result ≡ floor_milli y }
{
    y.lo * 1000 >> 30
}

// The upper end in thousandths, rounded upward.
pub fn ceil_milli(y: Log) -> i64
    requires { Countable y }
    ensures { result ≡ ceil_milli y }
{
    -(-(y.hi * 1000) >> 30)
}
