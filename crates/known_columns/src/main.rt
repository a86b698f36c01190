// The test program of columns: each request of its input, a line, is a sheet that is stored, by value and from lent bytes, or stored bytes that are turned back.
// Its stored output is that of a separate calculation.
#![tactic(auto)]

ghost use Rattle.std.specs.Prelude.{◌≤◌, length};

use areas::MARK;
use places::{Held, Places};
use refusals::Reason;
use scan::{Lines, Words};
use sheet_bytes::SIZE;
use std::io;

// The area that parts are lent of, and the most bytes that are turned back.
const AREA: usize = 1600;

// A, or R and the refusal's number; behind it the digits of what was written into the area.
fn show_answer<T: Drop, R: Reason>(
    rt: &impl Print,
    answer: Result<T, R>,
    area: &[u8],
) -> io::Result<()> {
    match answer {
        Ok(_done) => print!(rt; "A")?,
        Err(r) => print!(rt; "R{}", r.number())?,
    }
    requests::print_digits(rt, areas::written(area))
}

// The case of a frame's digits, whatever its fields hold.
fn held_of(digits: &[u8]) -> Option<Held> {
    let mut room = [0; 24];
    let frame = requests::frame_of(digits, &mut room)?;
    Some(Held {
        case: fields::read(frame),
        upper: 0,
    })
}

// The bytes of the next word; of the last one all that is left.
fn next_bytes<'a>(words: &mut Words<'a>) -> &'a [u8]
    ensures { length words.new.rest.now ≤ length words.old.rest.now }
{
    let text = words.rest;
    words.next_word();
    match words.rest.len() {
        0 => text,
        left => &text[..text.len() - left - 1],
    }
}

// The places that a text of places and digits by turns fills. A number that is no place changes nothing.
fn places_of(mut words: Words) -> Places {
    let mut places = Places::empty();
    while !words.rest.is_empty() {
        let place = words.next_word().value;
        let held = held_of(next_bytes(&mut words));
        if 1 <= place && place <= 64 {
            places.put(place as usize, held);
        }
    }
    places
}

fn store(rt: &impl Print, places: &Places, room: u64) -> io::Result<()> {
    let mut area = [MARK; AREA];
    let stored = archive::store(places, areas::lend(&mut area, room));
    show_answer(rt, stored, &area)
}

// The same from the first `told` of its lent bytes.
fn store_lent(rt: &impl Print, places: &Places, told: u64, room: u64) -> io::Result<()> {
    let mut sheet = [0; SIZE];
    sheet_bytes::pack(&mut sheet, places);
    let mut area = [MARK; AREA];
    let stored = lent_sheet::store(areas::lend(&mut sheet, told), areas::lend(&mut area, room));
    show_answer(rt, stored, &area)
}

fn show_sheet(rt: &impl Print, mut words: Words) -> io::Result<()> {
    let told = words.next_word().value;
    let room = words.next_word().value;
    let places = places_of(words);
    store(rt, &places, room)?;
    print!(rt; " ")?;
    store_lent(rt, &places, told, room)
}

// Bytes to turn back: the first, and others by a rule.
fn filled(first: u64) -> [u8; AREA] {
    let mut bytes = [0; AREA];
    for (i, byte) in bytes.iter_mut().enumerate() {
        *byte = ((i * i + i / 7) % 256) as u8;
    }
    bytes[0] = (first % 256) as u8;
    bytes
}

fn turn_back(rt: &impl Print, mut words: Words) -> io::Result<()> {
    let room = words.next_word().value;
    let mut stored = filled(words.next_word().value);
    let size = words.next_word().value;
    let mut area = [MARK; AREA];
    let restored = columns::restore(areas::lend(&mut stored, size), areas::lend(&mut area, room));
    show_answer(rt, restored, &area)
}

fn show(rt: &impl Print, number: u64, text: &[u8]) -> io::Result<()> {
    let mut words = Words { rest: text };
    let way = words.next_word().lead;
    print!(rt; "{number} ")?;
    if way == b'S' {
        show_sheet(rt, words)?;
    } else {
        turn_back(rt, words)?;
    }
    println!(rt)
}

fn main(rt: HostRuntime) {
    let mut room = [0; 65536];
    let text = requests::read_all(&mut rt.stdin(), &mut room);
    for (number, line) in (1..).zip(Lines { rest: text }) {
        // a failed write is let go, and the next line answered: the stored output shows what is missing
        let _unwritten = show(&rt, number, line);
    }
}
