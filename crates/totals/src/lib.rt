// The totals of a study sheet: how many cases, the greatest upper end, and the first place that has it.
// Right totals are kept right as a case comes or goes.
#![tactic(auto)]

ghost use Rattle.std.specs.Prelude.{◌<◌, ◌≡◌, []};
ghost use Rattle.places.specs.Places.{stands_for};
ghost use Rattle.totals.specs.Totals.{totals_of};
ghost use Rattle.totals.specs.Keeping.{including, after_adding, after_withdrawing};

use places::{Held, Places};

#[derive(Clone, Copy)]
pub struct Totals {
    pub cases: usize,
    // Pa
    pub greatest: u64,
    // the first that has the greatest; 0 where there is no case, as `yakepuhi_sheet_totals` tells it
    pub place: usize,
}

// The totals worked from the places.
pub fn afresh(now: &Places) -> Totals
    ensures { result ≡ totals_of (stands_for now.now) }
{
    let mut totals = Totals::none();
    for (i, place) in now.all.iter().enumerate() {
        if let Some(held) = place {
            totals = totals.with_end(i + 1, held.upper);
        }
    }
    totals
}

impl Totals {
    // Of an empty sheet.
    pub fn none() -> Self
        ensures { result ≡ totals_of [] }
    {
        Totals {
            cases: 0,
            greatest: 0,
            place: 0,
        }
    }

    // With one case more, behind the others: an end that only equals the greatest is not the first that has it.
    fn with_end(self, place: usize, upper: u64) -> Self
        requires { self.cases < 64 }
        ensures { result ≡ including self place upper }
    {
        let cases = self.cases + 1;
        if self.cases == 0 || self.greatest < upper {
            Totals {
                cases,
                greatest: upper,
                place,
            }
        } else {
            Totals { cases, ..self }
        }
    }

    // A case was added at a place behind the others.
    pub fn after_adding(self, now: &Places, place: usize, h: Held) -> Self
        ensures { result ≡ after_adding self now.now place h }
    {
        if self.cases < 64 {
            self.with_end(place, h.upper)
        } else {
            afresh(now)
        }
    }

    // The case at a place was withdrawn: the greatest stays unless it was the one shown.
    pub fn after_withdrawing(self, now: &Places, place: usize) -> Self
        ensures { result ≡ after_withdrawing self now.now place }
    {
        if self.place == place {
            return afresh(now);
        }
        Totals {
            cases: self.cases.saturating_sub(1),
            ..self
        }
    }
}
