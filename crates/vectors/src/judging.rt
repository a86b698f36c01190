// A vector of the separate calculation, and what its line's and its frame's answer show.
ghost use Rattle.std.specs.Prelude.{◌≡◌, ◌≤◌, option_copied};
ghost use Rattle.vectors.specs.Judging.{after_words, vector_of, values_of, line_of, untouched, figures_right, placed, filled_right, answer_right, finding_of};

use crate::figures;
use crate::table::Entry;
use scan::Words;

// The byte that fills an area before its answer.
pub const FILL: u8 = 170;

// What is expected of a line's answer: its range, or the refusal's number. No Result: a refusal that is expected is no failure.
#[derive(Clone, Copy)]
pub enum Expected {
    Accepted { range: u64 },
    Refused { number: u64 },
}

// The head of a vector: the bytes lent for the answer, and what is expected of it.
#[derive(Clone, Copy)]
pub struct Vector {
    pub room: usize,
    pub expected: Expected,
}

// A vector's parts: its head, and its text from the values on and from the line on.
#[derive(Clone, Copy)]
pub struct Parts<'a> {
    pub head: Vector,
    pub values: &'a [u8],
    pub line: &'a [u8],
}

// An answer: its verdict's number, as the data have it, 0 where the case is accepted; and the area that was lent for it.
#[derive(Clone, Copy, PartialEq, Eq)]
pub struct Answer {
    pub verdict: u64,
    pub area: [u8; 80],
}

// What a vector's answers show: whether the case is to be accepted, whether its frame was answered as its line, and whether there is a fault.
#[derive(Clone, Copy)]
pub struct Finding {
    pub accepted: bool,
    pub alike: bool,
    pub faulty: bool,
}

// Past the seven values of an accepted case.
fn skip_values(words: &mut Words)
    ensures { words.new.rest.now ≡ after_words 7 words.old.rest.now }
{
    // a count alone: each call moves the words on
    for i in 0..7usize {
        words.next_word();
    }
}

// The head of a vector, its room and A with the range or R with the refusal; what is left begins with the values.
fn head_of(words: &mut Words) -> Vector
    ensures head { result ≡ vector_of words.old.rest.now }
    ensures small { result.room ≤ 80 }
    ensures values { words.new.rest.now ≡ values_of words.old.rest.now }
{
    let room = words.next_word().value.min(80) as usize;
    let verdict = words.next_word();
    let expected = if verdict.lead == b'A' {
        Expected::Accepted {
            range: verdict.value,
        }
    } else {
        Expected::Refused {
            number: verdict.value,
        }
    };
    Vector { room, expected }
}

// A vector's head, and where its values and its line start. A case that is to be refused has no values: its line starts there.
pub fn vector_of(text: &[u8]) -> Parts<'_>
    ensures head { result.head ≡ vector_of text.now }
    ensures small { result.head.room ≤ 80 }
    ensures values { result.values.now ≡ values_of text.now }
    ensures line { result.line.now ≡ line_of text.now }
{
    let mut words = Words { rest: text };
    let head = head_of(&mut words);
    let values = words.rest;
    if let Expected::Accepted { .. } = head.expected {
        skip_values(&mut words);
    }
    Parts {
        head,
        values,
        line: words.rest,
    }
}

#[tactic(auto, unfolding(crate::specs::Judging::untouched))]
fn is_untouched(bytes: &[u8]) -> bool
    ensures { result ≡ untouched bytes.now }
{
    bytes.iter().all(|b| *b == FILL)
}

// Whether the seven figures are right by the values.
fn are_right(values: &[u8], area: &[u8; 80], table: &[Entry; 108]) -> bool
    ensures { result ≡ figures_right 7 0 values.now area.now table.now }
{
    let mut words = Words { rest: values };
    // by number, which tells the figure's place in the area
    for i in 0..7 {
        let w = words.next_word();
        if !figures::is_right(area, i, w, table) {
            return false;
        }
    }
    true
}

// Whether a case is accepted, in its range.
#[tactic(auto, unfolding(crate::specs::Judging::placed))]
fn is_placed(range: u64, answer: &Answer) -> bool
    ensures { result ≡ placed range answer.now }
{
    answer.verdict == 0 && u64::from(answer.area[0]) == range
}

// Whether an answer frame has the seven figures, and the bytes past its 77 are as they were.
fn is_filled(values: &[u8], area: &[u8; 80], table: &[Entry; 108]) -> bool
    ensures { result ≡ filled_right values.now area.now table.now }
{
    is_untouched(&area[77..]) && are_right(values, area, table)
}

// Whether a line's answer is the one that is expected.
fn is_right(expected: Expected, values: &[u8], answer: &Answer, table: &[Entry; 108]) -> bool
    ensures { result ≡ answer_right expected values.now answer.now table.now }
{
    match expected {
        Expected::Accepted { range } => {
            is_placed(range, answer) && is_filled(values, &answer.area, table)
        }
        Expected::Refused { number } => answer.verdict == number && is_untouched(&answer.area),
    }
}

// What is found of a vector, by the answers to its line and to the frame that the line spells, if it spells one.
pub fn judge(text: &[u8], line: &Answer, frame: Option<&Answer>, table: &[Entry; 108]) -> Finding
    ensures { result ≡ finding_of text.now line.now (option_copied frame.entry) table.now }
{
    let mut words = Words { rest: text };
    let expected = head_of(&mut words).expected;
    let right = is_right(expected, words.rest, line, table);
    Finding {
        accepted: matches!(expected, Expected::Accepted { .. }),
        alike: frame.is_some_and(|f| *f == *line),
        faulty: !(right && frame.is_none_or(|f| *f == *line)),
    }
}
