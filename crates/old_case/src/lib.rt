// A case as the old form holds it, four settings and six doubles, and the case of whole numbers that it stands for.
#![tactic(auto)]

ghost use Rattle.std.specs.Prelude.{◌≡◌, false};
ghost use Rattle.guidance.specs.Cases.{Fields};
ghost use Rattle.doubles.specs.Doubles.{unusable};
ghost use Rattle.old_case.specs.Fields.{tag_of, value_of, scale_of, whole_of};
ghost use Rattle.old_case.specs.Cases.{unusable_in, case_of, lost_heat, old_case_of};

use guidance::Case;

// One field of the old form, in the unit that its tag names.
#[derive(Clone, Copy)]
pub enum OldField {
    MassKg(f64),
    MeanG(f64),
    StoichiometricG(f64),
    HeatMj(f64),
    DistanceM(f64),
    BodyKg(f64),
}

// How many of a frame's units one of the old form's holds.
const MASS: u64 = 1000;

const CONCENTRATION: u64 = 10;

const HEAT: u64 = 1000;

const DISTANCE: u64 = 100;

const BODY: u64 = 1;

impl OldField {
    // The number that names the field in the old form.
    pub fn tag(self) -> u64
        ensures { result ≡ tag_of self }
    {
        match self {
            OldField::MassKg(_) => 1,
            OldField::MeanG(_) => 2,
            OldField::StoichiometricG(_) => 3,
            OldField::HeatMj(_) => 4,
            OldField::DistanceM(_) => 5,
            OldField::BodyKg(_) => 6,
        }
    }

    pub fn value(self) -> f64
        ensures { result ≡ value_of self }
    {
        match self {
            OldField::MassKg(x)
            | OldField::MeanG(x)
            | OldField::StoichiometricG(x)
            | OldField::HeatMj(x)
            | OldField::DistanceM(x)
            | OldField::BodyKg(x) => x,
        }
    }

    fn scale(self) -> u64
        ensures { result ≡ scale_of self }
    {
        match self {
            OldField::MassKg(_) => MASS,
            OldField::MeanG(_) | OldField::StoichiometricG(_) => CONCENTRATION,
            OldField::HeatMj(_) => HEAT,
            OldField::DistanceM(_) => DISTANCE,
            OldField::BodyKg(_) => BODY,
        }
    }

    // The whole number that a frame has for the field.
    pub fn whole(self) -> u64
        requires { unusable (value_of self) ≡ false }
        ensures { result ≡ whole_of self }
    {
        doubles::rounded_by(self.scale(), self.value())
    }
}

// A case as the old form holds it, whatever its doubles are: what is read is one too, so that whether they are usable is asked and is no part of the type.
#[derive(Clone, Copy)]
pub struct OldCase {
    pub substance: u64,
    pub state: u64,
    pub placement: u64,
    pub surroundings: u64,
    // kg
    pub mass: f64,
    // g/m³
    pub mean: f64,
    // g/m³
    pub stoichiometric: f64,
    // MJ/kg
    pub heat: f64,
    // m
    pub distance: f64,
    // kg
    pub body: f64,
}

// Test 16: one of the six doubles is unusable.
#[tactic(auto, unfolding(crate::specs::Cases::unusable_in))]
pub fn is_unusable(o: OldCase) -> bool
    ensures { result ≡ unusable_in o }
{
    doubles::is_unusable(o.mass)
        || doubles::is_unusable(o.mean)
        || doubles::is_unusable(o.stoichiometric)
        || doubles::is_unusable(o.heat)
        || doubles::is_unusable(o.distance)
        || doubles::is_unusable(o.body)
}

// The case of whole numbers, which need not fit a frame's fields, in the standard air.
#[tactic(auto, unfolding(crate::specs::Cases::case_of))]
pub fn case_of(o: OldCase) -> Case
    requires { unusable_in o ≡ false }
    ensures { result ≡ case_of o }
{
    Case {
        substance: o.substance,
        state: o.state,
        placement: o.placement,
        surroundings: o.surroundings,
        mass: OldField::MassKg(o.mass).whole(),
        mean: OldField::MeanG(o.mean).whole(),
        stoichiometric: OldField::StoichiometricG(o.stoichiometric).whole(),
        heat: OldField::HeatMj(o.heat).whole(),
        distance: OldField::DistanceM(o.distance).whole(),
        body: OldField::BodyKg(o.body).whole(),
        air: guidance::STANDARD,
    }
}

// Whether a heat above zero became 0.
pub fn is_heat_lost(o: OldCase) -> bool
    requires { unusable_in o ≡ false }
    ensures { result ≡ lost_heat o }
{
    0.0 < o.heat && OldField::HeatMj(o.heat).whole() == 0
}

// The old case of a case: each double is the nearest to its fraction.
#[tactic(auto, unfolding(crate::specs::Cases::old_case_of))]
pub fn of_case(c: Case) -> OldCase
    requires { Fields c }
    ensures { result ≡ old_case_of c }
{
    OldCase {
        substance: c.substance,
        state: c.state,
        placement: c.placement,
        surroundings: c.surroundings,
        mass: doubles::nearest_to(MASS, c.mass),
        mean: doubles::nearest_to(CONCENTRATION, c.mean),
        stoichiometric: doubles::nearest_to(CONCENTRATION, c.stoichiometric),
        heat: doubles::nearest_to(HEAT, c.heat),
        distance: doubles::nearest_to(DISTANCE, c.distance),
        body: doubles::nearest_to(BODY, c.body),
    }
}
