// A double of the old form and the whole number that a frame has for it, by the scale of its field: the way in and the way back.
#![tactic(auto)]

ghost use Rattle.std.specs.Prelude.{◌≡◌, false, ◌≤◌, ◌<◌, ◌^◌};
ghost use Rattle.std.specs.Float.{binary64};
ghost use Rattle.std.specs.Float.Ieee.{of_bits};
ghost use Rattle.doubles.specs.Doubles.{unusable, rounded, nearest};

// The double of 64 bits. The language makes none of a NaN's bits, so all of those become one: a constant, since the library's
// `f64_from_bits_with_nan` divides for it, which a caller that traps invalid operations would see.
pub fn of_bits(bits: u64) -> f64
    ensures { result ≡ of_bits binary64 bits }
{
    if 0x7ff0_0000_0000_0000 < (bits & 0x7fff_ffff_ffff_ffff) {
        f64::NAN
    } else {
        f64::from_bits(bits)
    }
}

// Test 16 of one double.
pub fn is_unusable(x: f64) -> bool
    ensures { result ≡ unusable x }
{
    x.is_nan() || x < 0.0 || 1000000000.0 < x
}

// x times the scale, rounded to a whole number, halves upward.
pub fn rounded_by(scale: u64, x: f64) -> u64
    requires { (unusable x ≡ false) × (scale ≤ 1000) }
    ensures { result ≡ rounded scale x }
{
    let bits = f64::to_bits(x);
    let exponent = (bits >> 52) & 0x7ff;
    // x is below 2^-12, so that the product is below a half
    if exponent <= 1010 {
        return 0;
    }
    // x is digits * 2^(exponent - 1075) and below 2^30, so that the shift is to the right
    let digits = (bits & 0xf_ffff_ffff_ffff) + 0x10_0000_0000_0000;
    let halves = (digits * scale) >> (1074 - exponent);
    (halves + 1) >> 1
}

// The double nearest to n / scale.
pub fn nearest_to(scale: u64, n: u64) -> f64
    requires { (0 < scale) × (scale ≤ 1000) × (n ≤ 2 ^ 53) }
    ensures { result ≡ nearest scale n }
{
    (n as f64) / (scale as f64)
}
