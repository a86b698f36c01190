// The vectors of a file: each is answered and judged, and the findings are counted.
use crate::answers;
use crate::planting::Plant;
use scan::{Lines, Words};
use std::io;
use vectors::judging::{Finding, Parts};
use vectors::table::Entry;

// Counts of a file's vectors.
#[derive(Drop, Default)]
struct Tally {
    accepted: u64,
    refused: u64,
    alike: u64,
    faulty: u64,
}

impl Tally {
    fn count(&mut self, found: Finding) {
        self.accepted = self.accepted.saturating_add(u64::from(found.accepted));
        self.refused = self.refused.saturating_add(u64::from(!found.accepted));
        self.alike = self.alike.saturating_add(u64::from(found.alike));
        self.faulty = self.faulty.saturating_add(u64::from(found.faulty));
    }
}

// A vector's line answered, its frame too, a fault planted, and both judged.
pub(crate) fn judged(vector: &[u8], plant: Plant, table: &[Entry; 108]) -> Finding {
    let Parts { head, line, .. } = vectors::judging::vector_of(vector);
    let mut by_line = answers::to_line(line, head.room);
    let mut by_frame = answers::to_frame_of(line, head.room);
    if let Some(fault) = plant.in_line {
        fault.put(&mut by_line);
    }
    if let Some(fault) = plant.in_frame {
        by_frame = fault.put_in_frame(by_frame);
    }
    vectors::judging::judge(vector, &by_line, by_frame.as_ref(), table)
}

// A line of the planted faults: in whose answer and at which place, the byte, the vector.
pub(crate) fn judged_planted(text: &[u8], table: &[Entry; 108]) -> Finding {
    let mut words = Words { rest: text };
    let plant = Plant::read(&mut words);
    judged(words.rest, plant, table)
}

fn show_unexpected(rt: &impl Print, line: &[u8]) -> io::Result<()> {
    print!(rt; "not as expected: ")?;
    rt.write_all(line)?;
    println!(rt)
}

// How many vectors a file has, how many are to be accepted and refused, were answered alike from the frame and have a fault; the sum of its bytes.
// A line is shown whole where a fault is found and none is expected, or none and one is.
pub(crate) fn show_all<F: Fn(&[u8]) -> Finding>(
    rt: &impl Print,
    name: &str,
    text: &[u8],
    expected: bool,
    judge: F,
) -> io::Result<()>
    requires { F.IsAlwaysCallable judge }
{
    let mut tally = Tally::default();
    for line in (Lines { rest: text }) {
        let found = judge(line);
        if found.faulty != expected {
            let _unwritten = show_unexpected(rt, line);
        }
        tally.count(found);
    }
    let lines = tally.accepted.saturating_add(tally.refused);
    print!(rt;
        "{name}: lines {lines}, accepted {}, refused {}",
        tally.accepted, tally.refused
    )?;
    print!(rt;
        ", answered alike from the frame {}, with a fault {}",
        tally.alike, tally.faulty
    )?;
    println!(rt; "; sum of its bytes {}", scan::sums::sum_of(text))
}
