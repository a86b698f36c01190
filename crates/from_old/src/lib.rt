// The way in from the old form: a line of 116 hexadecimal digits, its tests, and the case frame that it gives.
#![tactic(auto)]

ghost use Rattle.std.specs.Prelude.{◌≡◌, false, length};
ghost use Rattle.writable.specs.declared.Refusal.TheVariants.{Faulty};
ghost use Rattle.old_case.specs.Cases.{unusable_in};
ghost use Rattle.from_old.specs.declared.Refusal.TheVariants.{Unwritten};
ghost use Rattle.from_old.specs.Refusals.{number, word, told};
ghost use Rattle.from_old.specs.Entry.{FromLine};
ghost use Rattle.from_old.specs.Steps.{bytes_reading, line_reading, wholes_checked};

use guidance::Case;
use old_case::OldCase;
use refusals::{Fault, Reason};

// The characters of an old line.
const LINE: usize = 116;

// Why an old line has no frame: as any case that is to be written, or by tests 15 and 16, which stand behind 2.
#[derive(Clone, Copy, Debug, PartialEq, Eq)]
pub enum Refusal {
    Unwritten(writable::Refusal),
    Tag,
    Double,
}

impl From<Fault> for Refusal {
    ghost from_gives = { λ f r. r ≡ Unwritten (Faulty f) };

    fn from(f: Fault) -> Refusal {
        Refusal::Unwritten(writable::Refusal::Faulty(f))
    }
}

impl From<writable::Refusal> for Refusal {
    ghost from_gives = { λ w r. r ≡ Unwritten w };

    fn from(w: writable::Refusal) -> Refusal {
        Refusal::Unwritten(w)
    }
}

impl Reason for Refusal {
    ghost number_told = { number };

    ghost word_told = { word };

    ghost tells = { told };

    fn number(self) -> u64 {
        match self {
            Refusal::Unwritten(w) => w.number(),
            Refusal::Tag => 15,
            Refusal::Double => 16,
        }
    }

    fn word(self) -> [u8; 12] {
        match self {
            Refusal::Unwritten(w) => w.word(),
            Refusal::Tag => *b"tag\0\0\0\0\0\0\0\0\0",
            Refusal::Double => *b"double\0\0\0\0\0\0",
        }
    }
}

// Tests 15 and 16 of the 58 bytes: all tags before any double.
fn read_bytes(s: &[u8]) -> Result<OldCase, Refusal>
    requires { length s.now ≡ 58 }
    ensures { result ≡ bytes_reading s.now }
{
    if old_bytes::is_misplaced(s) {
        return Err(Refusal::Tag);
    }
    let o = old_bytes::read(s);
    if old_case::is_unusable(o) {
        return Err(Refusal::Double);
    }
    Ok(o)
}

// Tests 1, 2, 15 and 16 of an old line.
fn read_line(line: &[u8]) -> Result<OldCase, Refusal>
    ensures { result ≡ line_reading line.now }
{
    if line.len() != LINE {
        return Err(Refusal::from(Fault::Length));
    }
    let bytes = hexadecimals::spelled::<58>(line).ok_or(Fault::Digit)?;
    read_bytes(&bytes)
}

// Tests 3 to 6 of the whole numbers, a lost heat under 5.
fn check(o: OldCase) -> Result<Case, Fault>
    requires { unusable_in o ≡ false }
    ensures { result ≡ wholes_checked o }
{
    let found = limits::check_values(old_case::case_of(o));
    limits::check_heat(found, old_case::is_heat_lost(o))
}

// The way in: the frame of an old line, into the area's first 22 bytes.
pub fn from_line(line: &[u8], area: &mut [u8]) -> Result<Case, Refusal>
    ensures { FromLine line.now area.old result area.new }
{
    let o = read_line(line)?;
    let c = writable::write_frame(check(o), area)?;
    Ok(c)
}
