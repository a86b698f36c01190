// The test program of sheets: each operation of its input, a line, on a sheet by value and on a lent one.
// Its stored output is that of a separate calculation on a plain list with holes.
#![tactic(auto)]

use guidance::Case;
use refusals::Reason;
use scan::{Lines, Words};
use sheet::{Handed, Sheet};
use sheet_bytes::SIZE;
use std::io;
use totals::Totals;

fn show_place<R: Reason>(rt: &impl Print, placed: Result<usize, R>) -> io::Result<()> {
    match placed {
        Ok(place) => print!(rt; "@{place}"),
        Err(r) => print!(rt; "R{}", r.number()),
    }
}

// A letter for what was done, or R and the refusal's number.
fn show_done<T: Drop, R: Reason>(
    rt: &impl Print,
    letter: char,
    done: Result<T, R>,
) -> io::Result<()> {
    match done {
        Ok(_done) => print!(rt; "{letter}"),
        Err(r) => print!(rt; "R{}", r.number()),
    }
}

// A frame of which 24 zeros were lent: of one of 22 bytes the last two are left.
fn show_frame(rt: &impl Print, frame: &[u8; 24]) -> io::Result<()> {
    let size = if frame[22] == 0 { 22 } else { 24 };
    requests::print_digits(rt, &frame[..size])
}

#[tactic(auto, using(fields::specs::laws::Back::frame_most))]
fn show_case<R: Reason>(rt: &impl Print, letter: char, found: Result<Case, R>) -> io::Result<()> {
    match found {
        Ok(c) => {
            let mut frame = [0; 24];
            fields::write(&mut frame, c);
            print!(rt; "{letter}")?;
            show_frame(rt, &frame)
        }
        Err(r) => print!(rt; "R{}", r.number()),
    }
}

// The number of cases, the place of the greatest end, and whether the end lies between two numbers, which leave it open; without them the end.
fn show_totals(rt: &impl Print, totals: Totals, least: u64, most: u64) -> io::Result<()> {
    print!(rt; "T{}@{}:", totals.cases, totals.place)?;
    if most == 0 {
        print!(rt; "{}", totals.greatest)
    } else if least <= totals.greatest && totals.greatest <= most {
        print!(rt; "=")
    } else {
        print!(rt; "!")
    }
}

// A sheet by value and a lent one, on which the same is done.
#[derive(Drop)]
struct Sheets {
    sheet: Sheet,
    lent: [u8; SIZE],
}

impl Sheets {
    fn empty() -> Sheets {
        Sheets {
            sheet: Sheet::empty(),
            lent: [0; SIZE],
        }
    }

    // The sheet that an operation hands back is kept; its answer.
    fn keep<A>(&mut self, done: Handed<A>) -> A {
        let Handed { sheet, answer } = done;
        self.sheet = sheet;
        answer
    }

    fn add_line(&mut self, rt: &impl Print, line: &[u8]) -> io::Result<()> {
        let placed = self.keep(self.sheet.add_line(line));
        show_place(rt, placed).and(self.add_lent(rt, line))
    }

    // From the frame that the line spells.
    fn add_frame(&mut self, rt: &impl Print, line: &[u8]) -> io::Result<()> {
        let mut room = [0; 24];
        let shown = match requests::frame_of(line, &mut room) {
            Some(frame) => {
                let placed = self.keep(self.sheet.add_frame(frame));
                show_place(rt, placed)
            }
            None => print!(rt; "-"),
        };
        shown.and(self.add_lent(rt, line))
    }

    // The lent sheet takes frames alone.
    fn add_lent(&mut self, rt: &impl Print, line: &[u8]) -> io::Result<()> {
        let spaced = print!(rt; " ");
        let mut room = [0; 24];
        spaced.and(match requests::frame_of(line, &mut room) {
            Some(frame) => show_place(rt, lent_sheet::add(&mut self.lent, frame)),
            None => print!(rt; "-"),
        })
    }

    fn withdraw(&mut self, rt: &impl Print, place: u64) -> io::Result<()> {
        let withdrawn = self.keep(self.sheet.withdraw(place as usize));
        let lent = lent_sheet::withdraw(&mut self.lent, place);
        show_case(rt, 'W', withdrawn)?;
        print!(rt; " ")?;
        show_done(rt, 'W', lent)
    }

    fn close(&mut self, rt: &impl Print) -> io::Result<()> {
        let cases = self.keep(self.sheet.close());
        let lent = lent_sheet::close(&mut self.lent);
        print!(rt; "C{cases} ")?;
        show_done(rt, 'C', lent)
    }

    fn hold(&self, rt: &impl Print, place: u64) -> io::Result<()> {
        show_case(rt, 'H', self.sheet.case_at(place as usize))?;
        print!(rt; " ")?;
        let mut frame = [0; 24];
        let found = lent_sheet::case_at(&self.lent, place, &mut frame);
        show_done(rt, 'H', found)?;
        if found.is_ok() {
            show_frame(rt, &frame)?;
        }
        Ok(())
    }

    fn total(&self, rt: &impl Print, text: &[u8]) -> io::Result<()> {
        let mut words = Words { rest: text };
        let least = words.next_word().value;
        let most = words.next_word().value;
        show_totals(rt, self.sheet.totals, least, most)?;
        let lent = lent_sheet::totals(&self.lent);
        show_done(rt, ' ', lent)?;
        show_totals(rt, lent.unwrap_or(Totals::none()), least, most)
    }

    fn start_anew(&mut self, rt: &impl Print) -> io::Result<()> {
        *self = Sheets::empty();
        print!(rt; "E E")
    }

    // One operation, by its letter.
    fn act(&mut self, rt: &impl Print, text: &[u8]) -> io::Result<()> {
        let mut words = Words { rest: text };
        let letter = words.next_word().lead;
        let line = words.rest;
        let place = words.next_word().value;
        match letter {
            b'W' => self.withdraw(rt, place),
            b'C' => self.close(rt),
            b'E' => self.start_anew(rt),
            b'H' => self.hold(rt, place),
            b'T' => self.total(rt, line),
            b'F' => self.add_frame(rt, line),
            _ => self.add_line(rt, line),
        }
    }
}

fn main(rt: HostRuntime) {
    let mut room = [0; 65536];
    let text = requests::read_all(&mut rt.stdin(), &mut room);
    let mut sheets = Sheets::empty();
    for (number, line) in (1u64..).zip(Lines { rest: text }) {
        // a failed write is let go, and the operation done all the same: the stored output shows what is missing
        let _unwritten = print!(rt; "{number} ")
            .and(sheets.act(&rt, line))
            .and(println!(rt));
    }
}
