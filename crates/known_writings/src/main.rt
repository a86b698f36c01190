// The test program of writing: each request of its input, a way, an area's length and a case, written as a frame or as a spelling.
// Its stored output is that of a separate calculation.
#![tactic(auto)]

use areas::MARK;
use guidance::Case;
use refusals::code_of;
use scan::{Lines, Words};
use std::io;

// The area that parts are lent of.
const AREA: usize = 52;

// Eleven numbers in the order of a frame.
fn case_of(mut words: Words) -> Case {
    Case {
        substance: words.next_word().value,
        state: words.next_word().value,
        placement: words.next_word().value,
        surroundings: words.next_word().value,
        mass: words.next_word().value,
        mean: words.next_word().value,
        stoichiometric: words.next_word().value,
        heat: words.next_word().value,
        distance: words.next_word().value,
        body: words.next_word().value,
        air: words.next_word().value,
    }
}

// A frame is shown by its digits.
fn write_fields(rt: &impl Print, words: Words, room: u64) -> io::Result<()> {
    let mut area = [MARK; AREA];
    let code = code_of(writing::from_fields(case_of(words), areas::lend(&mut area, room)));
    print!(rt; "{code}")?;
    requests::print_bytes(rt, areas::written(&area))
}

// A frame is given by two digits a byte.
fn spell_frame(rt: &impl Print, text: &[u8], room: u64) -> io::Result<()> {
    let mut frame_room = [0; 24];
    let Some(frame) = requests::bytes_of(text, &mut frame_room) else {
        return Ok(());
    };
    let mut area = [MARK; AREA];
    let code = code_of(writing::spell_frame(frame, areas::lend(&mut area, room)));
    print!(rt; "{code}")?;
    requests::print_text(rt, areas::written(&area))
}

fn spell_line(rt: &impl Print, line: &[u8], room: u64) -> io::Result<()> {
    let mut area = [MARK; AREA];
    let code = code_of(writing::spell_line(line, areas::lend(&mut area, room)));
    print!(rt; "{code}")?;
    requests::print_text(rt, areas::written(&area))
}

fn show(rt: &impl Print, number: u64, text: &[u8]) -> io::Result<()> {
    let mut words = Words { rest: text };
    let way = words.next_word().value;
    let room = words.next_word().value;
    print!(rt; "{number} ")?;
    match way {
        1 => write_fields(rt, words, room)?,
        2 => spell_frame(rt, words.rest, room)?,
        _ => spell_line(rt, words.rest, room)?,
    }
    println!(rt)
}

fn main(rt: HostRuntime) {
    let mut room = [0; 65536];
    let text = requests::read_all(&mut rt.stdin(), &mut room);
    for (number, line) in (1..).zip(Lines { rest: text }) {
        // a failed write is let go, and the next line answered: the stored output shows what is missing
        let _unwritten = show(&rt, number, line);
    }
}
