// The five probits from enclosures of overpressure and impulse, in whole thousandths.
#![tactic(auto)]

ghost use Rattle.guidance.specs.Cases.{Air};
ghost use Rattle.probits.specs.Promises.{Loaded, Resisting, Probit3, Probit4, Probit5, AllProbits};
ghost use Rattle.probits.specs.Terms.{Based, RatioPower, Rootable, Root, AirRoot, Counted, CountedIn, Summed, FallingProbit, Strong, Withstood, Resistance, LungPressure};

use coefficients::Strength;
use fixed::Log;
use layout::{Probit, Probits};
use span::Span;

mod coefficients;

// (a/x)^(t/10)
fn ratio_power(a: Span, x: Span, t: u32) -> Span
    requires { Based a x t }
    ensures { RatioPower a x t result }
{
    let l = enclosure::ln(span::quo(a, x));
    enclosure::expo(fixed::scaled::<10_000>(l, 1_000 * t))
}

// n^(p/6)
fn root(n: u64, p: u32) -> Span
    requires { Rootable n p }
    ensures { Root n p result }
{
    enclosure::sixth_power(span::whole(n), p)
}

// P0^(1/2)
fn air_root(air: u64) -> Span
    requires { Air air }
    ensures { AirRoot air result }
{
    if air == guidance::STANDARD_AIR {
        coefficients::STANDARD_ROOT
    } else {
        root(air, 3)
    }
}

// y in thousandths.
fn thousandths(y: Log) -> Probit
    requires { Counted y }
    ensures { CountedIn y result.lower result.upper }
{
    Probit {
        lower: fixed::floor_milli(y),
        upper: fixed::ceil_milli(y),
    }
}

// 5 - (k/10000) ln s
fn falling(s: Span, k: u32) -> Probit
    requires { Summed s k }
    ensures { FallingProbit s k result.lower result.upper }
{
    let l = enclosure::ln(s);
    thousandths(coefficients::FIVE - fixed::scaled::<10_000>(l, k))
}

// What the probits are read from: enclosures of overpressure and impulse, the air pressure in Pa and the body mass in kg.
#[derive(Drop)]
struct Exposure {
    pressure: Span,
    impulse: Span,
    air: u64,
    body: u64,
    ghost loaded: { Loaded pressure impulse },
    ghost resisting: { Resisting air body },
}

impl Exposure {
    // Pr1 and Pr2, of a strength that is told: 5 - k ln[(a/ΔP)^s + (b/I)^t]
    fn withstood(&self, by: &Strength) -> Probit
        requires { Strong by.now }
        ensures { Withstood by.now self.now.pressure self.now.impulse result.lower result.upper }
    {
        let a = ratio_power(by.pressure, self.pressure, by.pressure_tenths);
        let b = ratio_power(by.impulse, self.impulse, by.impulse_tenths);
        falling(span::add(a, b), by.factor)
    }

    // 1.3·P0^(1/2)·m^(1/3)
    fn resistance(&self) -> Span
        ensures { Resistance self.now.air self.now.body result }
    {
        let a = air_root(self.air);
        let b = root(self.body, 2);
        span::mul(span::mul(coefficients::LUNG_IMPULSE, a), b)
    }

    // 4.2/(1 + ΔP/P0)
    fn lung_pressure(&self) -> Span
        ensures { LungPressure self.now.pressure self.now.air result }
    {
        let q = span::quo_whole(self.pressure, self.air, guidance::STANDARD_AIR);
        span::quo(coefficients::LUNG_PRESSURE, span::add(Span::ONE, q))
    }

    // Pr3 = 5 - 5.74 ln[4.2/(1 + ΔP/P0) + 1.3·P0^(1/2)·m^(1/3)/I]
    fn probit3(&self) -> Probit
        ensures { Probit3 self.now.pressure self.now.impulse self.now.air self.now.body result.lower result.upper }
    {
        let a = self.lung_pressure();
        let b = span::quo(self.resistance(), self.impulse);
        falling(span::add(a, b), 57_400)
    }

    // Pr4 = -12.6 + 1.524 ln ΔP
    fn probit4(&self) -> Probit
        ensures { Probit4 self.now.pressure result.lower result.upper }
    {
        let l = enclosure::ln(self.pressure);
        thousandths(coefficients::MINUS_TWELVE_SIX + fixed::scaled::<10_000>(l, 15_240))
    }

    // Pr5 = 5 - 2.44 ln[7380/ΔP + 1,300,000,000/(ΔP·I)]
    fn probit5(&self) -> Probit
        ensures { Probit5 self.now.pressure self.now.impulse result.lower result.upper }
    {
        let a = span::quo(coefficients::THROW_PRESSURE, self.pressure);
        let b = span::quo(
            coefficients::THROW_IMPULSE,
            span::mul(self.pressure, self.impulse),
        );
        falling(span::add(a, b), 24_400)
    }
}

// Pr1 to Pr5 in air of a given pressure, for a body of a given mass.
pub fn probits_of(pressure: Span, impulse: Span, air: u64, body: u64) -> Probits
    requires loaded { Loaded pressure impulse }
    requires resisting { Resisting air body }
    ensures { AllProbits pressure impulse air body result }
{
    let exposure = Exposure {
        pressure,
        impulse,
        air,
        body,
    };
    Probits {
        first: exposure.withstood(&coefficients::WEAK),
        second: exposure.withstood(&coefficients::STRONG),
        third: exposure.probit3(),
        fourth: exposure.probit4(),
        fifth: exposure.probit5(),
    }
}
