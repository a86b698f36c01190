// The entries for C and other languages: answers into a lent area, single figures, rings, rules, the old form's lines, frames and spellings that are written, a study sheet, and its cases stored by column. The crate linked_c exports them.
// They answer codes and write into lent numbers, since that is what C takes: 0, or a refusal's number.
#![tactic(auto)]

ghost use Rattle.std.specs.Prelude.{length};
ghost use Rattle.frame.specs.Verdicts.{frame_verdict, line_verdict};
ghost use Rattle.linked.specs.Codes.{Entered, FigureAnswered};
ghost use Rattle.linked.specs.Figures.{own_overpressure, own_impulse, figure_of};
ghost use Rattle.blast.specs.WaveEnds.{WaveEnds};
ghost use Rattle.guidance.specs.AirPressure.{air_of};
ghost use Rattle.guidance.specs.Cases.{Accepted};

use guidance::Case;
use layout::Ends;
use refusals::Reason;

pub mod old_lines;
pub mod reasons;
pub mod rings;
pub mod sheets;
pub mod writings;

// A case given as a frame's bytes.
pub fn yakepuhi_from_frame(frame: &[u8], area: &mut [u8]) -> u64
    ensures { Entered (frame_verdict frame.now (length area.old)) result area.old area.new }
{
    refusals::code_of(answer::from_frame(frame, area))
}

// A case given as a line of hexadecimal digits.
pub fn yakepuhi_from_line(line: &[u8], area: &mut [u8]) -> u64
    ensures { Entered (line_verdict line.now (length area.old)) result area.old area.new }
{
    refusals::code_of(answer::from_line(line, area))
}

// A figure of the wave: a name and no closure, since the promise is of that figure.
#[derive(Clone, Copy)]
enum Figure {
    Overpressure,
    Impulse,
}

// The two ends of a figure of an accepted case, without the work of the other figure.
fn ends_of(figure: Figure, c: Case) -> Ends
    requires { Accepted (air_of c) c }
    ensures { WaveEnds (figure_of figure c) result }
{
    let air = guidance::air_of(c);
    match figure {
        Figure::Overpressure => blast::pressure(c, air),
        Figure::Impulse => blast::impulse(c, air),
    }
}

// One figure of a case, without the work of the other and of the probits.
fn figure_alone(frame: &[u8], figure: Figure, lower: &mut u64, upper: &mut u64) -> u64
    ensures { FigureAnswered (figure_of figure) frame.now lower.old upper.old result lower.new upper.new }
{
    match frame::decide_frame(frame, frame::ANSWER) {
        Err(r) => r.number(),
        Ok(c) => {
            let e = ends_of(figure, c);
            *lower = e.lower;
            *upper = e.upper;
            0
        }
    }
}

// The overpressure alone, in whole pascals.
pub fn yakepuhi_overpressure(frame: &[u8], lower: &mut u64, upper: &mut u64) -> u64
    ensures { FigureAnswered own_overpressure frame.now lower.old upper.old result lower.new upper.new }
{
    figure_alone(frame, Figure::Overpressure, lower, upper)
}

// The impulse alone, in whole pascal-seconds.
pub fn yakepuhi_impulse(frame: &[u8], lower: &mut u64, upper: &mut u64) -> u64
    ensures { FigureAnswered own_impulse frame.now lower.old upper.old result lower.new upper.new }
{
    figure_alone(frame, Figure::Impulse, lower, upper)
}
