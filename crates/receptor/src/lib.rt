// A case at another distance than its own.
#![tactic(auto)]

ghost use Rattle.std.specs.Prelude.{◌≡◌};
ghost use Rattle.receptor.specs.Receptor.{moved, farthest};
ghost use Rattle.receptor.specs.laws.Moved.{Permitted};

use guidance::{Case, Setting};

// The case with its distance replaced, cm.
#[tactic(auto, unfolding(crate::specs::Receptor::moved))]
pub fn moved(c: Case, distance: u64) -> Case
    ensures { result ≡ moved c distance }
{
    Case { distance, ..c }
}

// The same in its setting: the cloud does not depend on the distance.
pub fn at_distance(here: &Setting, distance: u64) -> Setting
    requires { Permitted distance }
    ensures { (result.case ≡ moved here.now.case distance) × (result.air ≡ here.now.air) }
{
    let case = moved(here.case, distance);
    Setting {
        case,
        cloud: here.cloud,
        air: here.air,
    }
}

// The last accepted distance, by Rx and by 1,000,000 cm: bisection on the exact test.
pub fn farthest(here: &Setting) -> u64
    ensures { result ≡ farthest here.now.air here.now.case }
{
    let mut low: u64 = 1;
    let mut high: u64 = 1000001;
    // no slice is there to search: each distance is chosen by the last
    while 1 < high - low {
        let middle = (low + high) / 2;
        let there = at_distance(here, middle);
        if there.is_beyond() {
            high = middle;
        } else {
            low = middle;
        }
    }
    low
}
