// The wave formulas on intervals: reduced pressure and impulse of detonation and deflagration over the reduced distance R.
// Each function follows its formula operation by operation.
// A reduced distance is a plain span: how near it may come to 0 differs from formula to formula, so that no one type states it.
#![tactic(auto)]

ghost use Rattle.exact.specs.Fraction.{whole};
ghost use Rattle.guidance.specs.Waves.{number, range_end, slow_front, front_speed_of};
ghost use Rattle.waves.specs.Detonation.{Distance, AerosolPressure, AerosolImpulse};
ghost use Rattle.waves.specs.Gas.{Logged, Near, LogDistance, GasPressure, GasImpulse};
ghost use Rattle.waves.specs.Fronts.{Mass, SixthRoot, Factor, Front};
ghost use Rattle.waves.specs.Deflagration.{FallingPressure, FallingImpulse, Speed, Mach, Expansion, Deflagrating, DeflagrationPressure, DeflagrationImpulse};

use fixed::Log;
use span::Span;

pub mod coefficients;

// Heterogeneous detonation: 0.125/R + 0.137/R² + 0.023/R³.
pub fn aerosol_pressure(r: Span) -> Span
    requires { Distance 19 100 r }
    ensures { AerosolPressure r result }
{
    let square = span::mul(r, r);
    let cube = span::mul(square, r);
    let first = span::quo(coefficients::AEROSOL_FIRST, r);
    let second = span::quo(coefficients::AEROSOL_SECOND, square);
    let third = span::quo(coefficients::AEROSOL_THIRD, cube);
    let two = span::add(first, second);
    span::add(two, third)
}

// Heterogeneous detonation: 0.022/R.
pub fn aerosol_impulse(r: Span) -> Span
    requires { Distance 19 100 r }
    ensures { AerosolImpulse r result }
{
    span::quo(coefficients::AEROSOL_PUSH, r)
}

// 0.83/R - 0.14/R².
fn falling_pressure(r: Span) -> Span
    requires { Distance 33 100 r }
    ensures { FallingPressure r result }
{
    let square = span::mul(r, r);
    let first = span::quo(coefficients::FALLING_FIRST, r);
    let second = span::quo(coefficients::FALLING_SECOND, square);
    span::sub(first, second)
}

// 0.06/R + 0.01/R² - 0.0025/R³.
fn falling_impulse(r: Span) -> Span
    requires { Distance 33 100 r }
    ensures { FallingImpulse r result }
{
    let square = span::mul(r, r);
    let cube = span::mul(square, r);
    let first = span::quo(coefficients::PUSH_FIRST, r);
    let second = span::quo(coefficients::PUSH_SECOND, square);
    let third = span::quo(coefficients::PUSH_THIRD, cube);
    let two = span::add(first, second);
    span::sub(two, third)
}

// w = V/C0.
pub fn mach(v: Span) -> Span
    requires { Speed v }
    ensures { Mach v result }
{
    span::quo(v, coefficients::SOUND)
}

// g = (σ - 1)/σ of the state, 0 gas and 1 heterogeneous: the number that a case holds, whatever it is.
pub fn expansion(state: u64) -> Span
    ensures { Expansion state result }
{
    match state {
        1 => coefficients::AEROSOL_EXPANSION,
        _ => coefficients::GAS_EXPANSION,
    }
}

// Deflagration: w²g(0.83/R - 0.14/R²).
pub fn deflagration_pressure(w: Span, g: Span, r: Span) -> Span
    requires { Deflagrating w g r }
    ensures { DeflagrationPressure w g r result }
{
    let square = span::mul(w, w);
    let share = span::mul(square, g);
    let fall = falling_pressure(r);
    span::mul(share, fall)
}

// Deflagration: wg(1 - 0.4gw)(0.06/R + 0.01/R² - 0.0025/R³).
pub fn deflagration_impulse(w: Span, g: Span, r: Span) -> Span
    requires { Deflagrating w g r }
    ensures { DeflagrationImpulse w g r result }
{
    let product = span::mul(w, g);
    let part = span::mul(coefficients::FOUR_TENTHS, g);
    let lost = span::mul(part, w);
    let left = span::sub(Span::ONE, lost);
    let share = span::mul(product, left);
    let fall = falling_impulse(r);
    span::mul(share, fall)
}

// ln R, for both formulas of a gas.
pub fn log_distance(r: Span) -> Log
    requires { Distance 14 100 r }
    ensures { LogDistance r result }
{
    enclosure::ln(r)
}

// Gas detonation: e^(-1.124 - 1.66 ln R + 0.26 (ln R)²).
pub fn gas_pressure(l: Log) -> Span
    requires { Near l }
    ensures { GasPressure l result }
{
    let first = fixed::scaled::<10_000>(l, 16_600);
    let second = fixed::scaled::<10_000>(l * l, 2_600);
    enclosure::expo(coefficients::PRESSURE_START - first + second)
}

// Gas detonation: e^(-3.4217 - 0.898 ln R - 0.0096 (ln R)²). The sign of the square, and what is asked of ln R, keep it apart from the pressure.
pub fn gas_impulse(l: Log) -> Span
    requires { Logged l }
    ensures { GasImpulse l result }
{
    let first = fixed::scaled::<10_000>(l, 8_980);
    let second = fixed::scaled::<10_000>(l * l, 96);
    enclosure::expo(coefficients::IMPULSE_START - first - second)
}

// M^(1/6), M in kg from a mass in grams.
fn sixth_root(mass: u64) -> Span
    requires { Mass mass }
    ensures { SixthRoot mass result }
{
    let m = span::fraction(mass, 1000);
    enclosure::sixth_power(m, 1)
}

// 43 in range 5, 26 in range 6.
fn factor(range: u64) -> Span
    ensures { Factor range result }
{
    match range {
        5 => coefficients::FACTOR_43,
        _ => coefficients::FACTOR_26,
    }
}

// The speed that closes ranges 2, 3 and 4, in m/s.
fn range_end(range: u64) -> Span
    ensures { Front (number (whole (range_end range))) result }
{
    match range {
        2 => coefficients::FRONT_500,
        3 => coefficients::FRONT_300,
        _ => coefficients::FRONT_200,
    }
}

// The front speed of ranges 5 and 6: by the mass, but never faster than the end of range 4.
fn slow_front(range: u64, mass: u64) -> Span
    requires { Mass mass }
    ensures { Front (slow_front range mass) result }
{
    let v = span::mul(factor(range), sixth_root(mass));
    let end = range_end(4);
    span::lesser(v, end)
}

// The front speed V of ranges 2 to 6, in m/s, by the range and the grams that a case holds.
pub fn front_speed(range: u64, mass: u64) -> Span
    requires { Mass mass }
    ensures { Front (front_speed_of range mass) result }
{
    if range < 5 {
        range_end(range)
    } else {
        slow_front(range, mass)
    }
}
