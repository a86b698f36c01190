// 64 places, each a case or none.
#![tactic(auto)]

ghost use Rattle.std.specs.Prelude.{◌≡◌, [], ◌-◌, ◌≤◌, length, set};

use guidance::Case;

// A case with the upper end of its overpressure, as found when it was added.
#[derive(Clone, Copy)]
pub struct Held {
    pub case: Case,
    // Pa
    pub upper: u64,
}

// Place k is element k - 1; a place without a case is a hole.
// No model: a sheet's bytes have all 64 places, those past the last case too, and `sheet_bytes` promises each.
#[derive(Clone, Copy)]
pub struct Places {
    pub all: [Option<Held>; 64],
    // the length, also where the places are borrowed
    pub ghost whole: { length all ≡ 64 },
}

impl Places {
    ghost use Rattle.places.specs.Holes.{at, closed};
    ghost use Rattle.places.specs.Places.{stands_for};

    pub fn empty() -> Self
        ensures { stands_for result ≡ [] }
    {
        Places { all: [None; 64] }
    }

    // The last place that holds a case; 0 if none does.
    pub fn last(&self) -> usize
        ensures { result ≡ length (stands_for self.now) }
    {
        self.all
            .iter()
            .rposition(|place| place.is_some())
            .map_or(0, |i| i + 1)
    }

    // What a place holds; nothing outside places 1 to 64.
    pub fn content_at(&self, k: usize) -> Option<Held>
        ensures { result ≡ at (stands_for self.now) k }
    {
        self.all.get(k.checked_sub(1)?).copied().flatten()
    }

    // Place k with another content; nothing moves.
    pub fn put(&mut self, k: usize, held: Option<Held>)
        requires { (1 ≤ k) × (k ≤ 64) }
        ensures { self.new.all ≡ set self.old.all (k - 1) held }
    {
        self.all[k - 1] = held;
    }

    // The cases in order, from place 1 on.
    pub fn close(&mut self)
        ensures { stands_for self.new ≡ closed (stands_for self.old) }
    {
        let mut closed = [None; 64];
        // counted beside the loop: an `enumerate` behind a `filter` would be taken apart again in the proof
        let mut n = 0;
        for place in &self.all {
            if place.is_some() {
                closed[n] = *place;
                n += 1;
            }
        }
        self.all = closed;
    }
}
