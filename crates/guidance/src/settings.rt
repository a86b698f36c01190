// A case in an air, with its cloud, and the comparisons of its Rx: two products of two words each, compared whole.
ghost use Rattle.std.specs.Prelude.{◌≡◌, ◌*◌, ◌≤◌};
ghost use Rattle.guidance.specs.Distances.{nearer, farther, cube034, cube24};
ghost use Rattle.guidance.specs.Waves.{near_field};
ghost use Rattle.guidance.specs.AirPressure.{air_of};
ghost use Rattle.guidance.specs.Cases.{Air};
ghost use Rattle.guidance.specs.CloudWords.{Heated, Placed, weight_of, scaled_by, millionths};

use crate::{Case, Cloud};

// A case with its cloud, in air of a pressure in Pa: of an answer, the case's own.
#[derive(Clone, Copy)]
pub struct Setting {
    pub case: Case,
    pub cloud: Cloud,
    pub air: u64,
    pub ghost placed: { Placed case cloud air },
}

impl Setting {
    // The case in this air, with its cloud.
    pub fn of(case: Case, air: u64) -> Setting
        requires { (Heated case) × (Air air) }
        ensures { (result.case ≡ case) × (result.air ≡ air) }
    {
        let cloud = crate::cloud_of(case);
        Setting { case, cloud, air }
    }

    // The case in its own air.
    pub fn in_own_air(case: Case) -> Setting
        requires { Heated case }
        ensures { (result.case ≡ case) × (result.air ≡ air_of case) }
    {
        Setting::of(case, crate::air_of(case))
    }

    // cm³ times P0·parts, times 4 where E takes 3/4: to `scaled(t)` as Rx³ is to t millionths.
    #[tactic(auto, using(crate::proofs::Products::sides), unfolding(crate::specs::CloudWords::weight_of))]
    fn cubed(&self) -> u128
        ensures { result ≡ self.now.case.distance * self.now.case.distance * self.now.case.distance * weight_of self.now.cloud self.now.air }
    {
        let r = self.case.distance;
        let quarters = if self.cloud.aerosol { 4 } else { 1 };
        u128::from(r * r * r) * u128::from(self.air * self.cloud.parts * quarters)
    }

    // The joules times t, times 3 where E takes 3/4.
    #[tactic(auto, using(crate::proofs::Products::sides), unfolding(crate::specs::CloudWords::scaled_by))]
    fn scaled(&self, t: u64) -> u128
        requires { t ≤ 13824000000 }
        ensures { result ≡ self.now.cloud.joules * scaled_by self.now.cloud t }
    {
        let quarters = if self.cloud.aerosol { 3 } else { 1 };
        u128::from(self.cloud.joules) * u128::from(t * quarters)
    }

    // Whether Rx³ is below t millionths.
    #[tactic(auto, using(crate::proofs::laws::Comparisons::nearer_words))]
    fn is_nearer(&self, t: u64) -> bool
        requires { t ≤ 13824000000 }
        ensures { result ≡ nearer (millionths t) self.now.air self.now.case }
    {
        self.cubed() < self.scaled(t)
    }

    // Whether Rx is greater than 24.
    pub fn is_beyond(&self) -> bool
        ensures { result ≡ farther cube24 self.now.air self.now.case }
    {
        self.scaled(13_824_000_000) < self.cubed()
    }

    // Whether Rx is below 0.2 in a gas, below 0.25 in a heterogeneous cloud.
    pub fn is_near_field(&self) -> bool
        ensures { result ≡ near_field self.now.air self.now.case }
    {
        let t = if self.case.state == 1 { 15_625 } else { 8_000 };
        self.is_nearer(t)
    }

    // Whether Rx is below 0.34.
    #[tactic(auto, using(crate::proofs::laws::Comparisons::nearer_value), unfolding(crate::specs::Distances::cube034))]
    pub fn is_under_034(&self) -> bool
        ensures { result ≡ nearer cube034 self.now.air self.now.case }
    {
        self.is_nearer(39_304)
    }
}
