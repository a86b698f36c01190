// The test program of the old form: each request of its input, a way, an area's length and a text, taken in or given back.
// Its stored output is that of a separate calculation.
#![tactic(auto)]

use areas::MARK;
use refusals::code_of;
use scan::{Lines, Words};
use std::io;

// The area that parts are lent of.
const AREA: usize = 120;

// A frame is shown by its digits.
fn take_in(rt: &impl Print, line: &[u8], room: u64) -> io::Result<()> {
    let mut area = [MARK; AREA];
    let code = code_of(from_old::from_line(line, areas::lend(&mut area, room)));
    print!(rt; "{code}")?;
    requests::print_bytes(rt, areas::written(&area))
}

// A frame is given by two digits a byte.
fn give_back(rt: &impl Print, text: &[u8], room: u64) -> io::Result<()> {
    let mut frame_room = [0; 24];
    let Some(frame) = requests::bytes_of(text, &mut frame_room) else {
        return Ok(());
    };
    let mut area = [MARK; AREA];
    let code = code_of(to_old::to_line(frame, areas::lend(&mut area, room)));
    print!(rt; "{code}")?;
    requests::print_text(rt, areas::written(&area))
}

fn show(rt: &impl Print, number: u64, text: &[u8]) -> io::Result<()> {
    let mut words = Words { rest: text };
    let way = words.next_word().value;
    let room = words.next_word().value;
    print!(rt; "{number} ")?;
    if way == 1 {
        take_in(rt, words.rest, room)?;
    } else {
        give_back(rt, words.rest, room)?;
    }
    println!(rt)
}

fn main(rt: HostRuntime) {
    let mut room = [0; 65536];
    let text = requests::read_all(&mut rt.stdin(), &mut room);
    for (number, line) in (1..).zip(Lines { rest: text }) {
        // a failed write is let go, and the next line answered: the stored output shows what is missing
        let _unwritten = show(&rt, number, line);
    }
}
