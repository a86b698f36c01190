// ln at a point, in whole numbers of 2^-30. Inside, 2^40 is added, so that words hold both signs and 2^40 stands for 0.
ghost use Rattle.std.specs.Prelude.{◌-◌, ◌^◌, ◌<◌};
ghost use Rattle.enclosure.specs.LogSteps.{Third, Series, OctavesOf, Octaves, Point, Sided, LnPoint, Slackened, Slack, Unbiased};

// ln((1 + u)/(1 - u)) = 2u(1 + u²/3 + u⁴/5 + ..) at u = a / b: nine terms at 2^-32, from the last to the first, given in 2^-30.
fn odd_series(a: u64, b: u64) -> u64
    requires { Third a b }
    ensures { Series a b result }
{
    let w = a * 0x1_0000_0000 / b;
    let v = w * w / 0x1_0000_0000;
    let mut h = 0;
    for j in (0..9).rev() {
        h = v * h / 0x1_0000_0000 + 0x1_0000_0000 / (2 * j + 1);
    }
    w * h / 0x1_0000_0000 / 2
}

// k ln 2 and the series at a / b; ln 2 is held at 2^-52.
fn octaves(k: u64, a: u64, b: u64) -> u64
    requires { OctavesOf k a b }
    ensures { Octaves k a b result }
{
    k * 3121657384082679 / 0x40_0000 + odd_series(a, b)
}

// One of two words: x from 2^994 up, y below. Both are at hand, so that no branch waits for the exponent.
fn side(e: u32, x: u64, y: u64) -> u64
    ensures { Sided e x y result }
{
    if e >= 994 { x } else { y }
}

// How many octaves lie between 1 and 2^e / 2^994, or between 2^e / 2^993 and 1.
fn octave_of(e: u32) -> u64
    ensures { Sided e (e - 994) (993 - e) result }
{
    if e >= 994 {
        u64::from(e - 994)
    } else {
        u64::from(993 - e)
    }
}

// ln of m·2^e / 2^1024. From 1 up it is k ln 2 + ln f with f = m / 2^30; below 1 it is minus the logarithm of the reciprocal, whose f is 2^31 / m.
pub(crate) fn point(m: u64, e: u32) -> u64
    requires { Point m e }
    ensures { LnPoint m e result }
{
    let k = octave_of(e);
    let a = side(e, m - 0x4000_0000, 0x8000_0000 - m);
    let b = side(e, 0x4000_0000, 0x8000_0000);
    let x = octaves(k, a, b + m);
    side(e, 0x100_0000_0000 + x, 0x100_0000_0000 - (x + 8))
}

// (hi - lo) / lo in 2^-30, rounded upward: no less than ln hi - ln lo.
pub(crate) fn slack(lo: u64, hi: u64) -> u64
    requires { Slackened lo hi }
    ensures { Slack lo hi result }
{
    ((hi - lo) * 0x4000_0000).div_ceil(lo)
}

// x less 2^40, with its sign.
pub(crate) fn unbiased(x: u64) -> i64
    requires { x < 2 ^ 41 }
    ensures { Unbiased x result }
{
    x as i64 - 0x100_0000_0000
}
