// The way back to the old form: a case frame, its tests, and the line of 116 upper-case digits that it gives.
#![tactic(auto)]

ghost use Rattle.std.specs.Prelude.{◌≡◌, ◌≤◌, length};
ghost use Rattle.std.proofs.lemmas.List.Edits.{sets};
ghost use Rattle.guidance.specs.Cases.{Fields};
ghost use Rattle.to_old.specs.declared.Refusal.TheVariants.{Faulty};
ghost use Rattle.to_old.specs.Refusals.{number, word, told};
ghost use Rattle.to_old.specs.Entry.{old_line, ToLine};
ghost use Rattle.to_old.specs.Steps.{placed};

use guidance::Case;
use refusals::{Fault, Reason};

// The characters of an old line.
const LINE: usize = 116;

// Why a frame has no old line, in the order of the tests: a fault of its own, then 19 and 8.
#[derive(Clone, Copy, Debug, PartialEq, Eq)]
pub enum Refusal {
    Faulty(Fault),
    // the air pressure is not the standard one
    Air,
    Space,
}

impl From<Fault> for Refusal {
    ghost from_gives = { λ f r. r ≡ Faulty f };

    fn from(f: Fault) -> Refusal {
        Refusal::Faulty(f)
    }
}

impl Reason for Refusal {
    ghost number_told = { number };

    ghost word_told = { word };

    ghost tells = { told };

    fn number(self) -> u64 {
        match self {
            Refusal::Faulty(f) => f.number(),
            Refusal::Air => 19,
            Refusal::Space => 8,
        }
    }

    fn word(self) -> [u8; 12] {
        match self {
            Refusal::Faulty(f) => f.word(),
            Refusal::Air => *b"air\0\0\0\0\0\0\0\0\0",
            Refusal::Space => *b"space\0\0\0\0\0\0\0",
        }
    }
}

// Tests 19 and 8.
#[tactic(auto, unfolding(crate::specs::Tests::last_tests, refusals::specs::Order::first_of))]
fn place(c: Case, room: usize) -> Result<Case, Refusal>
    ensures { result ≡ placed c room }
{
    if c.air != guidance::STANDARD {
        return Err(Refusal::Air);
    }
    if room < LINE {
        return Err(Refusal::Space);
    }
    Ok(c)
}

// The old line of a case, into the area's first 116 bytes.
fn write_line(area: &mut [u8], c: Case)
    requires { (116 ≤ length area.old) × Fields c }
    ensures { area.new ≡ sets area.old 0 (old_line c) }
{
    let o = old_case::of_case(c);
    let mut s = [0u8; 58];
    old_bytes::write(&mut s, o);
    hexadecimals::write(&s, area);
}

// The way back: the old line of a frame, into the area's first 116 bytes.
pub fn to_line(frame: &[u8], area: &mut [u8]) -> Result<Case, Refusal>
    ensures { ToLine frame.now area.old result area.new }
{
    let sound = frame::check_frame(frame)?;
    let c = place(sound, area.len())?;
    write_line(area, c);
    Ok(c)
}
