// The figures of a file, each held between two numbers.
use crate::answers;
use scan::Lines;
use std::{fmt, io};
use vectors::bounds::Held;

// An end of a figure, of which 200,000 stands for zero.
#[derive(Drop)]
struct End(u64);

impl fmt::Display for End {
    fn fmt<W: fmt::Write>(&self, f: &mut fmt::Formatter<W>) -> fmt::Result {
        if self.0 < 200_000 {
            write!(f, "-{}", 200_000 - self.0)
        } else {
            write!(f, "{}", self.0 - 200_000)
        }
    }
}

fn show_held(rt: &impl Print, name: &[u8], held: Held) -> io::Result<()> {
    let lower = End(held.ends.lower);
    let upper = End(held.ends.upper);
    let said = if held.near { "agrees" } else { "departs" };
    rt.write_all(name)?;
    println!(rt; ": {lower}..{upper} {said}")
}

// Whether a figure agrees: its number, two numbers, a line of 44 characters, and its name.
fn show(rt: &impl Print, text: &[u8]) -> bool {
    let line_and_name = vectors::bounds::line_of(text);
    if line_and_name.len() < 44 {
        return false;
    }
    let (line, name) = line_and_name.split_at(44);
    let held = vectors::bounds::hold(text, &answers::to_line(line, 77));
    let _unwritten = show_held(rt, name, held);
    held.near
}

// How many figures a file has, how many of them lie between their numbers and how many do not, and the sum of the file's bytes.
pub(crate) fn show_all(rt: &impl Print, name: &str, text: &[u8]) -> io::Result<()> {
    let mut agree = 0u64;
    let mut depart = 0u64;
    for line in (Lines { rest: text }) {
        if show(rt, line) {
            agree = agree.saturating_add(1);
        } else {
            depart = depart.saturating_add(1);
        }
    }
    let figures = agree.saturating_add(depart);
    let sum = scan::sums::sum_of(text);
    println!(rt;
        "{name}: figures {figures}, agree {agree}, depart {depart}; sum of its bytes {sum}"
    )
}
