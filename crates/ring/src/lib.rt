// The ring of a threshold: an inner and an outer distance, between which the overpressure of a case falls below it.
#![tactic(auto)]

ghost use Rattle.std.specs.Prelude.{◌≡◌, ◌^◌};
ghost use Rattle.guidance.specs.Waves.{overpressure};
ghost use Rattle.limits.specs.Checks.{HeatedIfSound};
ghost use Rattle.blast.specs.Promises.{Ended};
ghost use Rattle.receptor.specs.Receptor.{moved};
ghost use Rattle.ring.specs.declared.Refusal.TheVariants.{Faulty};
ghost use Rattle.ring.specs.Refusals.{number, word, told};
ghost use Rattle.ring.specs.Ring.{IsRing, Fits, FromFrame, FromLine};
ghost use Rattle.ring.specs.Searching.{end_of, Standing, Searched, Edge, Crossed, RingFor, AnswerTo};

use blast::Explosion;
use guidance::{Case, Setting};
use layout::Ends;
use refusals::{Fault, Reason};

// Why there is no ring, in the order of the tests: a fault of the case, then 9, 10 and 11.
#[derive(Clone, Copy, Debug, PartialEq, Eq)]
pub enum Refusal {
    Faulty(Fault),
    // the threshold is outside its limits
    Threshold,
    // the lower end at 1 cm is below the threshold
    Weak,
    // the upper end at the farthest distance is not below it
    Strong,
}

// Distances in cm: at the inner one the threshold is reached, at the outer one it is not.
#[derive(Clone, Copy, Debug, PartialEq, Eq)]
pub struct Ring {
    pub inner: u64,
    pub outer: u64,
}

impl From<Fault> for Refusal {
    ghost from_gives = { λ f r. r ≡ Faulty f };

    fn from(f: Fault) -> Refusal {
        Refusal::Faulty(f)
    }
}

impl Reason for Refusal {
    ghost number_told = { number };

    ghost word_told = { word };

    ghost tells = { told };

    fn number(self) -> u64 {
        match self {
            Refusal::Faulty(f) => f.number(),
            Refusal::Threshold => 9,
            Refusal::Weak => 10,
            Refusal::Strong => 11,
        }
    }

    fn word(self) -> [u8; 12] {
        match self {
            Refusal::Faulty(f) => f.word(),
            Refusal::Threshold => *b"threshold\0\0\0",
            Refusal::Weak => *b"weak\0\0\0\0\0\0\0\0",
            Refusal::Strong => *b"strong\0\0\0\0\0\0",
        }
    }
}

// The end of an interval that a search follows: a name and no closure, since what a search promises is of that end.
#[derive(Clone, Copy)]
enum Side {
    Lower,
    Upper,
}

fn end_of(side: Side, e: Ends) -> u64
    ensures { result ≡ end_of side e }
{
    match side {
        Side::Lower => e.lower,
        Side::Upper => e.upper,
    }
}

// ΔP at a distance, in whole pascals.
fn pressure_at(here: &Setting, distance: u64) -> Ends
    requires { Standing here.now.air here.now.case distance }
    ensures { Ended (overpressure here.now.air (moved here.now.case distance)) (2 ^ 24) result }
{
    let there = receptor::at_distance(here, distance);
    Explosion::of(there).pressure()
}

// A distance at which the end reaches the threshold, while one cm farther it does not; from `near`, where it does, to `far`, where it does not.
fn edge(here: &Setting, threshold: u64, side: Side, near: u64, far: u64) -> u64
    requires { Searched side here.now.air here.now.case threshold near far }
    ensures { Edge side here.now.air here.now.case threshold near far result }
{
    let mut low = near;
    let mut high = far;
    // a bisection: no iterator gives the distances, each of which is chosen by the last
    while 1 < high - low {
        let middle = (low + high) / 2;
        let e = pressure_at(here, middle);
        if end_of(side, e) < threshold {
            high = middle;
        } else {
            low = middle;
        }
    }
    low
}

// The ring of a threshold that is reached at 1 cm and not at the farthest distance. The outer search starts at the inner distance.
fn ring_within(here: &Setting, threshold: u64, far: u64) -> Ring
    requires { Crossed here.now.air here.now.case threshold far }
    ensures { IsRing here.now.air here.now.case threshold result.inner result.outer }
{
    let inner = edge(here, threshold, Side::Lower, 1, far);
    let outer = edge(here, threshold, Side::Upper, inner, far) + 1;
    Ring { inner, outer }
}

// 10, 11 or the ring.
fn search(here: &Setting, threshold: u64) -> Result<Ring, Refusal>
    ensures { Fits here.now.air here.now.case threshold result }
{
    let first = pressure_at(here, 1);
    if first.lower < threshold {
        return Err(Refusal::Weak);
    }
    let far = receptor::farthest(here);
    // at 1 cm the upper end is not below the lower, which reaches the threshold
    if far == 1 {
        return Err(Refusal::Strong);
    }
    let last = pressure_at(here, far);
    if last.upper < threshold {
        Ok(ring_within(here, threshold, far))
    } else {
        Err(Refusal::Strong)
    }
}

// Test 9 and what follows it, for a case that passed tests 1 to 6; its own distance is not used.
fn ring_for(here: &Setting, threshold: u64) -> Result<Ring, Refusal>
    ensures { RingFor here.now.air here.now.case threshold result }
{
    if limits::is_outside(1, 18 * here.air, threshold) {
        return Err(Refusal::Threshold);
    }
    search(here, threshold)
}

// What tests 1 to 6 found stands, else the ring in the case's own air.
fn answer_to(found: Result<Case, Fault>, threshold: u64) -> Result<Ring, Refusal>
    requires { HeatedIfSound found }
    ensures { AnswerTo found threshold result }
{
    let c = found?;
    let here = Setting::in_own_air(c);
    ring_for(&here, threshold)
}

// The ring of a threshold in pascals, for a case given as a frame's bytes.
pub fn from_frame(frame: &[u8], threshold: u64) -> Result<Ring, Refusal>
    ensures { FromFrame frame.now threshold result }
{
    answer_to(frame::check_frame(frame), threshold)
}

// The same for a case given as a line.
pub fn from_line(line: &[u8], threshold: u64) -> Result<Ring, Refusal>
    ensures { FromLine line.now threshold result }
{
    answer_to(frame::check_line(line), threshold)
}
