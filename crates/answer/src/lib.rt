// The entries: a case, as a frame's bytes or as a line, is answered into a lent area of at least 77 bytes, or refused.
#![tactic(auto)]

ghost use Rattle.std.specs.Prelude.{◌≡◌};
ghost use Rattle.guidance.specs.Cases.{Accepted};
ghost use Rattle.guidance.specs.AirPressure.{air_of};
ghost use Rattle.answer.specs.Answer.{reading, readings, Wrote, FromFrame, FromLine};
ghost use Rattle.answer.specs.Entering.{FiguresOf, Due, Enterable, Entered};

use blast::Explosion;
use frame::Refusal;
use guidance::{Case, Setting};
use layout::{Damages, Ends, Probit, Probits};

// An answer's numbers, but for the damages, which the probits give.
#[derive(Clone, Copy)]
struct Figures {
    range: u64,
    pressure: Ends,
    impulse: Ends,
    probits: Probits,
}

fn figures_of(c: Case) -> Figures
    requires { Accepted (air_of c) c }
    ensures { FiguresOf c result }
{
    let at = Setting::in_own_air(c);
    let x = Explosion::of(at);
    let w = x.wave();
    let pressure = blast::ends(w.pressure);
    let impulse = blast::ends(w.impulse);
    let probits = probits::probits_of(w.pressure, w.impulse, at.air, c.body);
    Figures {
        range: at.cloud.range,
        pressure,
        impulse,
        probits,
    }
}

fn reading_of(p: Probit) -> Ends
    ensures { result ≡ reading p }
{
    let lower = damage::damage_at(p.lower);
    let upper = damage::damage_beside(p.lower, lower, p.upper);
    Ends { lower, upper }
}

#[tactic(auto, unfolding(crate::specs::Answer::readings))]
fn readings_of(p: Probits) -> Damages
    ensures { result ≡ readings p }
{
    p.map(reading_of)
}

// The answer, into the area's first 77 bytes.
fn write(c: Case, area: &mut [u8])
    requires { Due c area.old }
    ensures { Wrote c area.old area.new }
{
    let f = figures_of(c);
    let d = readings_of(f.probits);
    layout::put_answer(area, f.range, f.pressure, f.impulse, f.probits, d);
}

// What the verdict asks of the area.
fn enter(verdict: Result<Case, Refusal>, area: &mut [u8]) -> Result<Case, Refusal>
    requires { Enterable verdict area.old }
    ensures { Entered verdict area.old result area.new }
{
    let c = verdict?;
    write(c, area);
    Ok(c)
}

// A case given as a frame's bytes.
pub fn from_frame(frame: &[u8], area: &mut [u8]) -> Result<Case, Refusal>
    ensures { FromFrame frame.now area.old result area.new }
{
    let verdict = frame::decide_frame(frame, area.len());
    enter(verdict, area)
}

// A case given as a line of hexadecimal digits.
pub fn from_line(line: &[u8], area: &mut [u8]) -> Result<Case, Refusal>
    ensures { FromLine line.now area.old result area.new }
{
    let verdict = frame::decide_line(line, area.len());
    enter(verdict, area)
}
