// A line's answer, and that of the frame that it spells.
ghost use Rattle.std.specs.Prelude.{◌≤◌};

use frame::Refusal;
use guidance::Case;
use refusals::code_of;
use vectors::judging::{Answer, FILL};

// What an entry answers, with the first `room` bytes of an area lent to it.
fn answer_of<F: FnOnce(&mut [u8]) -> Result<Case, Refusal>>(room: usize, entry: F) -> Answer
    requires room { room ≤ 80 }
    requires callable { F.IsAlwaysCallable entry }
{
    let mut area = [FILL; 80];
    let verdict = code_of(entry(&mut area[..room]));
    Answer { verdict, area }
}

pub(crate) fn to_line(line: &[u8], room: usize) -> Answer
    requires { room ≤ 80 }
{
    answer_of(room, |area| answer::from_line(line, area))
}

// The same of the frame that a line spells, if it spells one.
pub(crate) fn to_frame_of(line: &[u8], room: usize) -> Option<Answer>
    requires { room ≤ 80 }
{
    let mut frame_room = [0; 24];
    let frame = requests::frame_of(line, &mut frame_room)?;
    Some(answer_of(room, |area| answer::from_frame(frame, area)))
}
