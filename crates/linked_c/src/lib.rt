// The entries for C and other languages: answers into a lent area, single figures, rings, rules, the old form's lines, frames and spellings that are written, a study sheet, and its cases stored by column.
// One line each: no crate may stand on a static library, so what the laws of numbers speak of stands in `linked`.
#![tactic(auto)]

ghost use Rattle.std.specs.Prelude.{length};
ghost use Rattle.frame.specs.Verdicts.{frame_verdict, line_verdict};
ghost use Rattle.linked.specs.Codes.{Entered, FigureAnswered};
ghost use Rattle.linked.specs.Figures.{own_overpressure, own_impulse};

mod old_lines;
mod reasons;
mod rings;
mod sheets;
mod writings;

// A case given as a frame's bytes.
#[unsafe(no_mangle)]
pub extern "C" fn yakepuhi_from_frame(frame: &[u8], area: &mut [u8]) -> u64
    ensures { Entered (frame_verdict frame.now (length area.old)) result area.old area.new }
{
    linked::yakepuhi_from_frame(frame, area)
}

// A case given as a line of hexadecimal digits.
#[unsafe(no_mangle)]
pub extern "C" fn yakepuhi_from_line(line: &[u8], area: &mut [u8]) -> u64
    ensures { Entered (line_verdict line.now (length area.old)) result area.old area.new }
{
    linked::yakepuhi_from_line(line, area)
}

// The overpressure alone, in whole pascals.
#[unsafe(no_mangle)]
pub extern "C" fn yakepuhi_overpressure(frame: &[u8], lower: &mut u64, upper: &mut u64) -> u64
    ensures { FigureAnswered own_overpressure frame.now lower.old upper.old result lower.new upper.new }
{
    linked::yakepuhi_overpressure(frame, lower, upper)
}

// The impulse alone, in whole pascal-seconds.
#[unsafe(no_mangle)]
pub extern "C" fn yakepuhi_impulse(frame: &[u8], lower: &mut u64, upper: &mut u64) -> u64
    ensures { FigureAnswered own_impulse frame.now lower.old upper.old result lower.new upper.new }
{
    linked::yakepuhi_impulse(frame, lower, upper)
}
