// The test program of rules: each case of its input, a line, answered from the line and from the frame that it spells.
// Its stored output is that of a separate calculation.
#![tactic(auto)]

use frame::Refusal;
use refusals::Reason;
use requests::OrDash;
use rules::Rules;
use scan::Lines;
use std::{fmt, io};

// The rules' numbers, or R and the refusal's number.
#[derive(Drop)]
struct Shown(Result<Rules, Refusal>);

impl fmt::Display for Shown {
    fn fmt<W: fmt::Write>(&self, f: &mut fmt::Formatter<W>) -> fmt::Result {
        match self.0 {
            Ok(r) => write!(f, "{},{}", r.pressure.number(), r.impulse.number()),
            Err(r) => write!(f, "R{}", r.number()),
        }
    }
}

fn show(rt: &impl Print, number: u64, line: &[u8]) -> io::Result<()> {
    let mut room = [0; 24];
    let frame = requests::frame_of(line, &mut room);
    let by_line = Shown(rules::from_line(line));
    let by_frame = OrDash(frame.map(|f| Shown(rules::from_frame(f))));
    println!(rt; "{number} {by_line} {by_frame}")
}

fn main(rt: HostRuntime) {
    let mut room = [0; 65536];
    let text = requests::read_all(&mut rt.stdin(), &mut room);
    for (number, line) in (1..).zip(Lines { rest: text }) {
        // a failed write is let go, and the next line answered: the stored output shows what is missing
        let _unwritten = show(&rt, number, line);
    }
}
