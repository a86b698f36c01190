// Overpressure and impulse of an accepted case: intervals around the exact values, and whole numbers around these.
// Branches are taken by the exact tests of `guidance` alone; each function follows its formula operation by operation.
#![tactic(auto)]

ghost use Rattle.std.specs.Prelude.{◌≡◌, ◌^◌, ◌<◌};
ghost use Rattle.guidance.specs.Cases.{Air, Accepted};
ghost use Rattle.guidance.specs.Waves.{reduced_distance, detonation_pressure, detonation_impulse, reduced_pressure, reduced_impulse, overpressure, impulse};
ghost use Rattle.waves.specs.Deflagration.{Deflagrating, DeflagrationPressure, DeflagrationImpulse};
ghost use Rattle.blast.specs.Windows.{distance_window, detonation_pressure_window, detonation_impulse_window, reduced_pressure_window, reduced_impulse_window};
ghost use Rattle.blast.specs.Promises.{Enclosure, WaveOf, FiguresOf, Ended, Roundable, Rounded};
ghost use Rattle.blast.specs.OneProof.{enclosure_prop};
ghost use Rattle.blast.specs.Intermediates.{Detonated, FlameOf, Deflagrated, CommonOf, Worded, EnergySpan, Rootable, CubeRoot, AirPower, MachSpan, DeflagrationSpan, near_impulse, ScaleOf, EnclosesSome, Pascals, PascalSeconds, Scaled};

use fixed::Log;
use guidance::{Case, Cloud, Setting};
use layout::Ends;
use span::Span;

// An accepted case in its setting, and its Rx, by which the formulas of the wave are taken.
#[derive(Clone, Copy)]
pub struct Explosion {
    pub at: Setting,
    distance: Span,
    pub ghost accepted: { Accepted at.air at.case },
    ghost reduced: { Enclosure (reduced_distance at.air at.case) distance_window distance } by { enclosure_prop _ _ _ },
}

// ΔP and I as intervals.
#[derive(Clone, Copy)]
pub struct Wave {
    pub pressure: Span,
    pub impulse: Span,
}

// ΔP and I by deflagration and by detonation (request 5).
#[derive(Clone, Copy)]
pub struct Figures {
    pub deflagration: Wave,
    pub detonation: Wave,
}

// What a detonation formula takes: the state in the near field, a number as the case has it, Rx of a heterogeneous cloud, ln Rx of a gas.
#[derive(Clone, Copy)]
enum Detonation {
    Near(u64),
    Heterogeneous(Span),
    Gas(Log),
}

// What the deflagration formulas take: w, g and R.
#[derive(Clone, Copy)]
struct Flame {
    mach: Span,
    expansion: Span,
    distance: Span,
}

// What overpressure and impulse of a case are both worked from. Range 1 has no deflagration.
#[derive(Clone, Copy)]
struct Common {
    detonation: Detonation,
    deflagration: Option<Flame>,
}

// What Ix is multiplied by: P0^(2/3) and E^(1/3).
#[derive(Clone, Copy)]
struct Scale {
    power: Span,
    root: Span,
}

// 3/4.
const THREE_QUARTERS: Span = Span {
    lo: 1610612736,
    hi: 1610612736,
    e: 993,
};

// Px of the near field.
const EIGHTEEN: Span = Span {
    lo: 1207959552,
    hi: 1207959552,
    e: 998,
};

// Ix of the near field of a heterogeneous cloud, 0.16.
const NEAR_AEROSOL: Span = Span {
    lo: 1374389534,
    hi: 1374389535,
    e: 991,
};

// Where Ix of the near field of a gas is taken, 0.142.
const NEAR_GAS: Span = Span {
    lo: 1219770712,
    hi: 1219770713,
    e: 991,
};

// What stands for Rx in a deflagration where Rx is below it, 0.34.
const NEAREST: Span = Span {
    lo: 1460288880,
    hi: 1460288881,
    e: 992,
};

// P0^(2/3) at 101,300 Pa.
const STANDARD_POWER: Span = Span {
    lo: 1139312549,
    hi: 1139312550,
    e: 1005,
};

// E in joules; 3/4 of the words where the cloud is heterogeneous and deflagrates.
fn energy(k: Cloud) -> Span
    requires { Worded k }
    ensures { EnergySpan k result }
{
    let words = span::fraction(k.joules, k.parts);
    if k.aerosol {
        span::mul(words, THREE_QUARTERS)
    } else {
        words
    }
}

// t^(1/3).
fn cube_root(t: Span) -> Span
    requires { Rootable t }
    ensures { CubeRoot t result }
{
    enclosure::sixth_power(t, 2)
}

// P0^(2/3).
fn air_power(air: u64) -> Span
    requires { Air air }
    ensures { AirPower air result }
{
    if air == guidance::STANDARD_AIR {
        return STANDARD_POWER;
    }
    let p = span::whole(air);
    enclosure::sixth_power(p, 4)
}

// Rx = r/(E/P0)^(1/3), at any distance.
fn reduced_distance(at: &Setting) -> Span
    requires { Accepted at.now.air at.now.case }
    ensures { Enclosure (reduced_distance at.now.air at.now.case) distance_window result }
{
    let joules = energy(at.cloud);
    let share = span::quo_whole(joules, at.air, guidance::STANDARD_AIR);
    let root = cube_root(share);
    let metres = span::fraction(at.case.distance, 100);
    span::quo(metres, root)
}

// Ix of the near field.
fn near_impulse(state: u64) -> Span
    ensures { Enclosure (near_impulse state) detonation_impulse_window result }
{
    if state == 1 {
        NEAR_AEROSOL
    } else {
        let l = waves::log_distance(NEAR_GAS);
        waves::gas_impulse(l)
    }
}

impl Flame {
    // Px of a deflagration.
    fn pressure(self) -> Span
        requires { Deflagrating self.mach self.expansion self.distance }
        ensures { DeflagrationPressure self.mach self.expansion self.distance result }
    {
        waves::deflagration_pressure(self.mach, self.expansion, self.distance)
    }

    // Ix of a deflagration.
    fn impulse(self) -> Span
        requires { Deflagrating self.mach self.expansion self.distance }
        ensures { DeflagrationImpulse self.mach self.expansion self.distance result }
    {
        waves::deflagration_impulse(self.mach, self.expansion, self.distance)
    }
}

impl Explosion {
    // The explosion of an accepted case.
    pub fn of(at: Setting) -> Explosion
        requires { Accepted at.air at.case }
        ensures { result.at ≡ at }
    {
        let distance = reduced_distance(&at);
        Explosion { at, distance }
    }

    // The near field and the state choose the formula; ln Rx serves both figures of a gas.
    fn detonation(&self) -> Detonation
        ensures { Detonated self.now.at.air self.now.at.case result }
    {
        let near = self.at.is_near_field();
        if near {
            return Detonation::Near(self.at.case.state);
        }
        if self.at.case.state == 1 {
            Detonation::Heterogeneous(self.distance)
        } else {
            let l = waves::log_distance(self.distance);
            Detonation::Gas(l)
        }
    }

    // Px of a detonation.
    fn detonation_pressure(&self, d: Detonation) -> Span
        requires { Detonated self.now.at.air self.now.at.case d }
        ensures { Enclosure (detonation_pressure self.now.at.air self.now.at.case) detonation_pressure_window result }
    {
        match d {
            Detonation::Near(_) => EIGHTEEN,
            Detonation::Heterogeneous(x) => waves::aerosol_pressure(x),
            Detonation::Gas(l) => waves::gas_pressure(l),
        }
    }

    // Ix of a detonation, by other formulas than Px, arm for arm.
    fn detonation_impulse(&self, d: Detonation) -> Span
        requires { Detonated self.now.at.air self.now.at.case d }
        ensures { Enclosure (detonation_impulse self.now.at.air self.now.at.case) detonation_impulse_window result }
    {
        match d {
            Detonation::Near(state) => near_impulse(state),
            Detonation::Heterogeneous(x) => waves::aerosol_impulse(x),
            Detonation::Gas(l) => waves::gas_impulse(l),
        }
    }

    // w = V/C0.
    fn mach_number(&self) -> Span
        ensures { MachSpan self.now.at.case result }
    {
        let v = waves::front_speed(self.at.cloud.range, self.at.case.mass);
        waves::mach(v)
    }

    // R of the deflagration formulas.
    fn deflagration_distance(&self) -> Span
        ensures { DeflagrationSpan self.now.at.air self.now.at.case result }
    {
        let under = self.at.is_under_034();
        if under { NEAREST } else { self.distance }
    }

    // w, g and R of a case.
    fn flame(&self) -> Flame
        ensures { FlameOf self.now.at.air self.now.at.case result }
    {
        Flame {
            mach: self.mach_number(),
            expansion: waves::expansion(self.at.case.state),
            distance: self.deflagration_distance(),
        }
    }

    // Ranges 2 to 6 deflagrate.
    fn deflagration(&self) -> Option<Flame>
        ensures { Deflagrated self.now.at.air self.now.at.case result }
    {
        if self.at.cloud.range < 2 {
            None
        } else {
            Some(self.flame())
        }
    }

    // What both figures are worked from, each part once.
    fn common(&self) -> Common
        ensures { CommonOf self.now.at.air self.now.at.case result }
    {
        Common {
            detonation: self.detonation(),
            deflagration: self.deflagration(),
        }
    }

    // Px: in ranges 2 to 6 the smaller of the two.
    fn reduced_pressure(&self, m: Common) -> Span
        requires { CommonOf self.now.at.air self.now.at.case m }
        ensures { Enclosure (reduced_pressure self.now.at.air self.now.at.case) reduced_pressure_window result }
    {
        let d = self.detonation_pressure(m.detonation);
        match m.deflagration {
            None => d,
            Some(f) => {
                let p = f.pressure();
                span::lesser(p, d)
            }
        }
    }

    // Ix: in ranges 2 to 6 the smaller of the two. One function for Px and Ix would be handed each call of the body and each formula of the promise.
    fn reduced_impulse(&self, m: Common) -> Span
        requires { CommonOf self.now.at.air self.now.at.case m }
        ensures { Enclosure (reduced_impulse self.now.at.air self.now.at.case) reduced_impulse_window result }
    {
        let d = self.detonation_impulse(m.detonation);
        match m.deflagration {
            None => d,
            Some(f) => {
                let i = f.impulse();
                span::lesser(i, d)
            }
        }
    }

    // Px in Pa: Px·P0. Px and Ix come as plain spans, as the formulas of `waves` give them; that they are some accepted case's is asked.
    fn pascals(&self, px: Span) -> Span
        requires { EnclosesSome reduced_pressure_window px }
        ensures { Pascals self.now.at.air px result }
    {
        let p = span::whole(self.at.air);
        span::mul(px, p)
    }

    // P0^(2/3) and E^(1/3).
    fn scale(&self) -> Scale
        ensures { ScaleOf self.now.at.air self.now.at.case result }
    {
        let power = air_power(self.at.air);
        let joules = energy(self.at.cloud);
        let root = cube_root(joules);
        Scale { power, root }
    }

    // Ix in Pa·s: Ix·P0^(2/3)·E^(1/3)/C0.
    fn pascal_seconds(&self, s: Scale, ix: Span) -> Span
        requires { (ScaleOf self.now.at.air self.now.at.case s) × (EnclosesSome reduced_impulse_window ix) }
        ensures { PascalSeconds self.now.at.air self.now.at.case ix result }
    {
        let share = span::mul(ix, s.power);
        let all = span::mul(share, s.root);
        span::quo(all, waves::coefficients::SOUND)
    }

    // Px and Ix, of either rule or the smaller, in Pa and Pa·s.
    fn scaled(&self, s: Scale, px: Span, ix: Span) -> Wave
        requires { (ScaleOf self.now.at.air self.now.at.case s) × (EnclosesSome reduced_pressure_window px) × (EnclosesSome reduced_impulse_window ix) }
        ensures { Scaled self.now.at.air self.now.at.case px ix result }
    {
        let pressure = self.pascals(px);
        let impulse = self.pascal_seconds(s, ix);
        Wave { pressure, impulse }
    }

    // ΔP and I, in Pa and Pa·s.
    pub fn wave(&self) -> Wave
        ensures { WaveOf self.now.at.air self.now.at.case result }
    {
        let m = self.common();
        let px = self.reduced_pressure(m);
        let ix = self.reduced_impulse(m);
        let s = self.scale();
        self.scaled(s, px, ix)
    }

    // ΔP in whole pascals, without the work of the impulse.
    pub fn pressure(&self) -> Ends
        ensures { Ended (overpressure self.now.at.air self.now.at.case) (2 ^ 24) result }
    {
        let m = self.common();
        let px = self.reduced_pressure(m);
        let p = self.pascals(px);
        ends(p)
    }

    // I in whole pascal-seconds, without the work of the overpressure.
    pub fn impulse(&self) -> Ends
        ensures { Ended (impulse self.now.at.air self.now.at.case) (2 ^ 24) result }
    {
        let m = self.common();
        let ix = self.reduced_impulse(m);
        let s = self.scale();
        let i = self.pascal_seconds(s, ix);
        ends(i)
    }

    // ΔP and I by either rule, before the smaller is taken.
    pub fn figures(&self) -> Figures
        ensures { FiguresOf self.now.at.air self.now.at.case result }
    {
        let s = self.scale();
        let f = self.flame();
        let fp = f.pressure();
        let fi = f.impulse();
        let deflagration = self.scaled(s, fp, fi);
        let d = self.detonation();
        let dp = self.detonation_pressure(d);
        let di = self.detonation_impulse(d);
        let detonation = self.scaled(s, dp, di);
        Figures {
            deflagration,
            detonation,
        }
    }
}

// The whole numbers around a span.
pub fn ends(s: Span) -> Ends
    requires { Roundable s }
    ensures { Rounded s result }
{
    let lower = span::floor_int(s);
    let upper = span::ceil_int(s);
    Ends { lower, upper }
}

// ΔP of an accepted case in whole pascals, for a caller that wants no more of it.
pub fn pressure(c: Case, air: u64) -> Ends
    requires { (Accepted air c) × (Air air) }
    ensures { Ended (overpressure air c) (2 ^ 24) result }
{
    let at = Setting::of(c, air);
    Explosion::of(at).pressure()
}

// I of an accepted case in whole pascal-seconds, for a caller that wants no more of it.
pub fn impulse(c: Case, air: u64) -> Ends
    requires { (Accepted air c) × (Air air) }
    ensures { Ended (impulse air c) (2 ^ 24) result }
{
    let at = Setting::of(c, air);
    Explosion::of(at).impulse()
}
