// The guidance as this product reads it: what is decided exactly of a case, on words.
#![tactic(auto)]

ghost use Rattle.std.specs.Prelude.{◌≡◌};
ghost use Rattle.guidance.specs.Substances.{heat_of};
ghost use Rattle.guidance.specs.AirPressure.{air_of};
ghost use Rattle.guidance.specs.Clouds.{range_of};
ghost use Rattle.guidance.specs.Cases.{Fields};
ghost use Rattle.guidance.specs.CloudWords.{Heated, CloudOf, joules_of};

mod ranges;
mod settings;
mod substances;

pub use settings::Setting;

// The air pressure that a frame of 22 bytes has, in units of 10 Pa (001).
pub const STANDARD: u64 = 10130;

// The same in Pa.
pub const STANDARD_AIR: u64 = 101300;

// A case, field by field as its frame gives it, whatever numbers these are: a promise that asks for fields in their values says so.
#[derive(Clone, Copy)]
pub struct Case {
    // 0 unlisted; 1 to 75
    pub substance: u64,
    // 0 gas, 1 heterogeneous
    pub state: u64,
    // 0 raised, 1 on the ground
    pub placement: u64,
    // 1 to 4
    pub surroundings: u64,
    // grams
    pub mass: u64,
    // mean concentration, tenths of g/m³
    pub mean: u64,
    // stoichiometric concentration, tenths of g/m³
    pub stoichiometric: u64,
    // J/g; 0: from the table
    pub heat: u64,
    // cm
    pub distance: u64,
    // kg
    pub body: u64,
    // air pressure, units of 10 Pa
    pub air: u64,
}

// What is worked out of a case once: its speed range, and its energy E = joules/parts, times 3/4 where `aerosol` holds.
#[derive(Clone, Copy)]
pub struct Cloud {
    // 1 to 6, a number since it is what the answer's byte says
    pub range: u64,
    pub joules: u64,
    pub parts: u64,
    pub aerosol: bool,
}

// J/g: the given heat, else the table's; 0 where there is none.
#[tactic(auto, using(crate::proofs::laws::Limits::heats))]
pub fn heat_of(c: Case) -> u64
    ensures { result ≡ heat_of c.substance c.heat }
{
    if 0 < c.heat {
        c.heat
    } else {
        440 * substances::beta_of(c.substance)
    }
}

// P0 in Pa.
pub fn air_of(c: Case) -> u64
    requires { Fields c }
    ensures { result ≡ air_of c }
{
    10 * c.air
}

// The printed range of the substance's class in its surroundings.
fn range_of(c: Case) -> u64
    requires { Fields c }
    ensures { result ≡ range_of c }
{
    let class = substances::class_of(c.substance);
    ranges::range_at(class, c.surroundings)
}

// E·parts without the 3/4: at most 10^9·150000·2·50000 = 15·10^18, below 2^64.
#[tactic(auto, using(crate::proofs::laws::Limits::energies), unfolding(crate::specs::CloudWords::joules_of))]
fn joules_of(c: Case) -> u64
    requires { Fields c }
    ensures { result ≡ joules_of c }
{
    let ground = if c.placement == 1 { 2 } else { 1 };
    let lean = if c.stoichiometric < c.mean {
        c.stoichiometric
    } else {
        1
    };
    c.mass * heat_of(c) * ground * lean
}

// The speed range and the energy of a case.
pub fn cloud_of(c: Case) -> Cloud
    requires { Heated c }
    ensures { CloudOf c result }
{
    let range = range_of(c);
    let joules = joules_of(c);
    let parts = if c.stoichiometric < c.mean { c.mean } else { 1 };
    // heterogeneous, in ranges 2 to 6
    let aerosol = c.state == 1 && 1 < range;
    Cloud {
        range,
        joules,
        parts,
        aerosol,
    }
}
