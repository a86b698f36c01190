// A case that is to be written: why it is not, a fault of its own or an area too short; else its frame.
#![tactic(auto)]

ghost use Rattle.std.specs.Prelude.{◌≡◌};
ghost use Rattle.writable.specs.declared.Refusal.TheVariants.{Faulty};
ghost use Rattle.writable.specs.Refusals.{number, word, told};
ghost use Rattle.fields.specs.Bytes.{frame_bytes};
ghost use Rattle.writable.specs.Steps.{placed, needed_for, Written};

use guidance::Case;
use refusals::{Fault, Reason};

#[derive(Clone, Copy, Debug, PartialEq, Eq)]
pub enum Refusal {
    Faulty(Fault),
    Space,
}

impl From<Fault> for Refusal {
    ghost from_gives = { λ f r. r ≡ Faulty f };

    fn from(f: Fault) -> Refusal {
        Refusal::Faulty(f)
    }
}

impl Reason for Refusal {
    ghost number_told = { number };

    ghost word_told = { word };

    ghost tells = { told };

    fn number(self) -> u64 {
        match self {
            Refusal::Faulty(f) => f.number(),
            Refusal::Space => 8,
        }
    }

    fn word(self) -> [u8; 12] {
        match self {
            Refusal::Faulty(f) => f.word(),
            Refusal::Space => *b"space\0\0\0\0\0\0\0",
        }
    }
}

// What its own tests found stands, else test 8 decides, with `room` bytes for the `needed` ones.
pub fn place(found: Result<Case, Fault>, needed: usize, room: usize) -> Result<Case, Refusal>
    ensures { result ≡ placed found (λ (c : Case). needed) room }
{
    let c = found?;
    if room < needed {
        return Err(Refusal::Space);
    }
    Ok(c)
}

// The bytes of the frame of a case that passed its own tests.
fn frame_size(found: Result<Case, Fault>) -> usize
    ensures { result ≡ needed_for frame_bytes found }
{
    found.map_or(0, fields::size_of)
}

// The frame of a case that passed its own tests, into the area's first bytes.
pub fn write_frame(found: Result<Case, Fault>, area: &mut [u8]) -> Result<Case, Refusal>
    ensures { Written frame_bytes found area.old result area.new }
{
    let c = place(found, frame_size(found), area.len())?;
    fields::write(area, c);
    Ok(c)
}
