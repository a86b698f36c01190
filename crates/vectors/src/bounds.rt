// A figure of an answer held between two numbers.
ghost use Rattle.std.specs.Prelude.{◌≡◌, ◌<◌};
ghost use Rattle.scan.specs.Words.{after_word};
ghost use Rattle.vectors.specs.Bounds.{end_at, held_of};

use crate::figures::{Interval, raised, raised_word};
use crate::judging::Answer;
use byte_numbers::number_at;
use scan::Words;

// Whether a figure lies between two numbers, and its ends, raised by 200,000.
#[derive(Clone, Copy, Default)]
pub struct Held {
    pub near: bool,
    pub ends: Interval,
}

// The ends of the i-th of twelve figures, raised by 200,000: pressure, impulse, five probits, five damages. A number, as the data name it.
fn ends_of(area: &[u8; 80], i: usize) -> Interval
    requires { i < 12 }
    ensures lower { result.lower ≡ end_at area.now i 1 29 }
    ensures upper { result.upper ≡ end_at area.now i 5 31 }
{
    if i < 7 {
        Interval {
            lower: raised_word(number_at::<4>(area, 1 + 8 * i)),
            upper: raised_word(number_at::<4>(area, 5 + 8 * i)),
        }
    } else {
        Interval {
            lower: 200_000 + number_at::<2>(area, 29 + 4 * i),
            upper: 200_000 + number_at::<2>(area, 31 + 4 * i),
        }
    }
}

// What a figure of the data is held to: its number, the two numbers, the line, and a name. There is no thirteenth figure: it is not near, and its ends are 0.
pub fn hold(text: &[u8], answer: &Answer) -> Held
    ensures { result ≡ held_of text.now answer.now.verdict answer.now.area }
{
    let mut words = Words { rest: text };
    let figure = words.next_word().value;
    let least = words.next_word();
    let most = words.next_word();
    if 12 <= figure {
        return Held::default();
    }
    let ends = ends_of(&answer.area, figure as usize);
    let inside = raised(200_000, least) <= ends.lower && ends.upper <= raised(200_000, most);
    Held {
        near: answer.verdict == 0 && inside,
        ends,
    }
}

// The line of a figure, and its name.
pub fn line_of(text: &[u8]) -> &[u8]
    ensures { result.now ≡ after_word (after_word (after_word text.now)) }
{
    let mut words = Words { rest: text };
    words.next_word();
    words.next_word();
    words.next_word();
    words.rest
}
