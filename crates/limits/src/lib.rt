// Tests 3 to 6, with 12 to 14 in the place of 4: whether each field of a case holds one of its values, and whether the case has a heat.
#![tactic(auto)]

ghost use Rattle.std.specs.Prelude.{◌≡◌};
ghost use Rattle.limits.specs.Tests.{outside, quantity_outside, heat_missing};
ghost use Rattle.limits.specs.Checks.{values_checked, heat_checked, case_checked};

use guidance::Case;
use refusals::Fault;

// Whether x is none of the values least to most.
pub fn is_outside(least: u64, most: u64, x: u64) -> bool
    ensures { result ≡ outside least most x }
{
    !(least..=most).contains(&x)
}

// Joined by `|`: no branch waits for a comparison.
#[tactic(auto, unfolding(crate::specs::Tests::quantity_outside))]
fn quantity_outside(c: Case) -> bool
    ensures { result ≡ quantity_outside c }
{
    let mass = is_outside(1, 1000000000, c.mass);
    let mean = is_outside(1, 50000, c.mean);
    let stoichiometric = is_outside(1, 50000, c.stoichiometric);
    let heat = is_outside(0, 150000, c.heat);
    let distance = is_outside(1, 1000000, c.distance);
    let body = is_outside(1, 500, c.body);
    let air = is_outside(5000, 11000, c.air);
    mass | mean | stoichiometric | heat | distance | body | air
}

// Test 6: heat 0, and the substance has none of its own.
fn heat_missing(c: Case) -> bool
    ensures { result ≡ heat_missing c }
{
    guidance::heat_of(c) == 0
}

// Tests 3 to 5.
#[tactic(auto, unfolding(crate::specs::Tests::value_tests, refusals::specs::Order::first_of))]
pub fn check_values(c: Case) -> Result<Case, Fault>
    ensures { result ≡ values_checked c }
{
    if is_outside(0, 75, c.substance) {
        return Err(Fault::Substance);
    }
    if is_outside(0, 1, c.state) {
        return Err(Fault::State);
    }
    if is_outside(0, 1, c.placement) {
        return Err(Fault::Placement);
    }
    if is_outside(1, 4, c.surroundings) {
        return Err(Fault::Surroundings);
    }
    if quantity_outside(c) {
        return Err(Fault::Quantity);
    }
    Ok(c)
}

// What tests 3 to 5 found stands; then a heat that was given and lost is refused under 5; else test 6 decides.
pub fn check_heat(found: Result<Case, Fault>, lost: bool) -> Result<Case, Fault>
    ensures { result ≡ heat_checked lost found }
{
    let c = found?;
    if lost {
        return Err(Fault::Quantity);
    }
    if heat_missing(c) {
        return Err(Fault::Heat);
    }
    Ok(c)
}

// Tests 3 to 6.
pub fn check(c: Case) -> Result<Case, Fault>
    ensures { result ≡ case_checked c }
{
    check_heat(check_values(c), false)
}
