// The test program: the known cases of document 01 that are not proved, the printed examples, and a separate high-precision calculation held against the answers.
#![tactic(auto)]

mod answers;
mod figures;
mod judging;
mod planting;

use frame::Refusal;
use planting::Plant;
use refusals::Fault;
use scan::Words;
use std::fs::File;
use std::io;
use vectors::judging::FILL;
use vectors::table::Entry;

// A file of the data, of which there is nothing where it cannot be opened.
fn load<'a>(rt: &HostRuntime, name: &str, room: &'a mut [u8]) -> &'a [u8] {
    match File::open(rt, name) {
        Ok(mut file) => requests::read_all(&mut file, room),
        Err(_) => &[],
    }
}

fn show_figures(rt: &HostRuntime, name: &str) -> io::Result<()> {
    let mut room = [0; 4096];
    figures::show_all(rt, name, load(rt, name, &mut room))
}

fn show_vectors(rt: &HostRuntime, name: &str, table: &[Entry; 108]) -> io::Result<()> {
    let mut room = [0; 65536];
    let text = load(rt, name, &mut room);
    judging::show_all(rt, name, text, false, |vector| {
        judging::judged(vector, Plant::default(), table)
    })
}

fn show_planted(rt: &HostRuntime, table: &[Entry; 108]) -> io::Result<()> {
    let mut room = [0; 65536];
    let text = load(rt, "planted", &mut room);
    judging::show_all(rt, "planted", text, true, |line| {
        judging::judged_planted(line, table)
    })
}

// Table 3, two words an entry.
fn table_of(text: &[u8]) -> [Entry; 108] {
    let mut words = Words { rest: text };
    let mut table = [Entry {
        tenths: 0,
        hundredths: 0,
    }; 108];
    for entry in &mut table {
        entry.tenths = words.next_word().value;
        entry.hundredths = words.next_word().value;
    }
    table
}

// The table is read whether or not its line is written.
fn show_table(rt: &HostRuntime) -> [Entry; 108] {
    let mut room = [0; 4096];
    let text = load(rt, "table", &mut room);
    let _unwritten = println!(rt; "table; sum of its bytes {}", scan::sums::sum_of(text));
    table_of(text)
}

// Table 3 around its ends.
fn show_readings(rt: &HostRuntime) -> io::Result<()> {
    let [a, b, c, d] = [2669, 2670, 8089, 8090].map(damage::damage_at);
    println!(rt; "Table 3 at 2669: {a}, at 2670: {b}, at 8089: {c}, at 8090: {d}")
}

fn is_refused_for_length(frame: &[u8]) -> bool {
    let mut area = [FILL; 80];
    matches!(
        answer::from_frame(frame, &mut area),
        Err(Refusal::Faulty(Fault::Length))
    )
}

// How many of the frames of 0 to 79 bytes are refused for their length.
fn show_lengths(rt: &HostRuntime) -> io::Result<()> {
    let frame = [0; 80];
    let refused = (0..80)
        .filter(|n| is_refused_for_length(&frame[..*n]))
        .count();
    println!(rt; "frames of 0 to 79 bytes, refused for their length: {refused}")
}

// A failed write is let go, and the next part shown: the stored output shows what is missing.
fn main(rt: HostRuntime) {
    let _unwritten = show_readings(&rt);
    let _unwritten = show_lengths(&rt);
    let table = show_table(&rt);
    for name in [
        "known",
        "examples",
        "substances",
        "classes",
        "branches",
        "boundaries",
        "extremes",
        "refusals",
        "random",
        "airs",
    ] {
        let _unwritten = show_vectors(&rt, name, &table);
    }
    let _unwritten = show_planted(&rt, &table);
    for name in [
        "near",
        "far",
        "printed_003_1",
        "printed_003_2",
        "printed_004_80",
        "printed_004_100",
        "printed_004_135",
    ] {
        let _unwritten = show_figures(&rt, name);
    }
}
