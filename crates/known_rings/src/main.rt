// The test program of rings: each request of its input, a threshold and a line, answered from the line and from the frame that it spells.
// Its stored output is that of a separate calculation.
#![tactic(auto)]

use refusals::Reason;
use requests::OrDash;
use ring::{Refusal, Ring};
use scan::{Lines, Words};
use std::{fmt, io};

// A ring's distances, or R and the refusal's number.
#[derive(Drop)]
struct Shown(Result<Ring, Refusal>);

impl fmt::Display for Shown {
    fn fmt<W: fmt::Write>(&self, f: &mut fmt::Formatter<W>) -> fmt::Result {
        match self.0 {
            Ok(Ring { inner, outer }) => write!(f, "{inner}..{outer}"),
            Err(r) => write!(f, "R{}", r.number()),
        }
    }
}

fn show(rt: &impl Print, number: u64, text: &[u8]) -> io::Result<()> {
    let mut words = Words { rest: text };
    let threshold = words.next_word().value;
    let line = words.rest;
    let mut room = [0; 24];
    let frame = requests::frame_of(line, &mut room);
    let by_line = Shown(ring::from_line(line, threshold));
    let by_frame = OrDash(frame.map(|f| Shown(ring::from_frame(f, threshold))));
    println!(rt; "{number} {by_line} {by_frame}")
}

fn main(rt: HostRuntime) {
    let mut room = [0; 65536];
    let text = requests::read_all(&mut rt.stdin(), &mut room);
    for (number, line) in (1..).zip(Lines { rest: text }) {
        // a failed write is let go, and the next line answered: the stored output shows what is missing
        let _unwritten = show(&rt, number, line);
    }
}
