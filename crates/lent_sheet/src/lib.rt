// A study sheet that a caller lends as bytes, all zero when empty.
// Each call unpacks the sheet, acts on it and packs it again; a refusal changes nothing that is lent.
#![tactic(auto)]

ghost use Rattle.std.specs.Prelude.{◌≡◌, ◌≤◌, ◌<◌, length, MatchResult};
ghost use Rattle.sheet_bytes.specs.Packing.{size, lent};
ghost use Rattle.sheet.specs.Operations.{list_of};
ghost use Rattle.lent_sheet.specs.declared.Refusal.TheVariants.{Unadded, Vacant, Space};
ghost use Rattle.lent_sheet.specs.Refusals.{number, word, told, code};
ghost use Rattle.lent_sheet.specs.Calls.{withdraw as withdrawing, close as closing, Acts, Shows, Archives};
ghost use Rattle.lent_sheet.specs.Steps.{AddsTo, TotalsOf};

use columns::Shortage;
use refusals::Reason;
use sheet::{Sheet, Vacancy};
use sheet_bytes::SIZE;
use totals::Totals;

// Why a call is refused: a case is not added, a place holds none, or too few bytes are lent, 8.
#[derive(Clone, Copy, Debug, PartialEq, Eq)]
pub enum Refusal {
    Unadded(sheet::Refusal),
    Vacant,
    Space,
}

impl From<sheet::Refusal> for Refusal {
    ghost from_gives = { λ q r. r ≡ Unadded q };

    fn from(q: sheet::Refusal) -> Refusal {
        Refusal::Unadded(q)
    }
}

impl From<Vacancy> for Refusal {
    ghost from_gives = { λ v r. r ≡ Vacant };

    fn from(_: Vacancy) -> Refusal {
        Refusal::Vacant
    }
}

impl From<Shortage> for Refusal {
    ghost from_gives = { λ s r. r ≡ Space };

    fn from(_: Shortage) -> Refusal {
        Refusal::Space
    }
}

impl Reason for Refusal {
    ghost number_told = { number };

    ghost word_told = { word };

    ghost tells = { told };

    fn number(self) -> u64 {
        match self {
            Refusal::Unadded(r) => r.number(),
            Refusal::Vacant => Vacancy.number(),
            Refusal::Space => Shortage.number(),
        }
    }

    fn word(self) -> [u8; 12] {
        match self {
            Refusal::Unadded(r) => r.word(),
            Refusal::Vacant => Vacancy.word(),
            Refusal::Space => Shortage.word(),
        }
    }
}

// Whether a sheet's bytes are lent.
fn enough(s: &[u8]) -> Result<(), Refusal>
    ensures { MatchResult result (λ _. size ≤ length s.now) (λ r. (r ≡ Space) × (length s.now < size)) }
{
    if s.len() < SIZE {
        return Err(Refusal::Space);
    }
    Ok(())
}

// The sheet that lent bytes stand for. Its totals are not worked, since no call but the last shows them.
fn read(s: &[u8]) -> Sheet
    requires { size ≤ length s.now }
    ensures { list_of result ≡ lent s.now }
{
    Sheet {
        places: sheet_bytes::unpack(s),
        totals: Totals::none(),
    }
}

// The case of a frame's bytes, right after the last one; its place.
pub fn add(s: &mut [u8], frame: &[u8]) -> Result<usize, Refusal>
    ensures { AddsTo frame.now s.old result s.new }
{
    if s.len() < SIZE {
        // tests 1 to 7, which an empty sheet has alone, come before 8
        Sheet::empty().enter_frame(frame)?;
        return Err(Refusal::Space);
    }
    let mut sheet = read(s);
    let place = sheet.enter_frame(frame)?;
    sheet_bytes::pack(s, &sheet.places);
    Ok(place)
}

// The case at a place goes and leaves a gap.
pub fn withdraw(s: &mut [u8], place: u64) -> Result<(), Refusal>
    ensures { Acts (withdrawing place) s.old (code result) s.new }
{
    enough(s)?;
    let mut sheet = read(s);
    sheet.leave(place as usize)?;
    sheet_bytes::pack(s, &sheet.places);
    Ok(())
}

// The gaps go.
pub fn close(s: &mut [u8]) -> Result<(), Refusal>
    ensures { Acts closing s.old (code result) s.new }
{
    enough(s)?;
    let mut sheet = read(s);
    sheet.close_up();
    sheet_bytes::pack(s, &sheet.places);
    Ok(())
}

// The frame of the case at a place, into the area's first bytes.
pub fn case_at(s: &[u8], place: u64, area: &mut [u8]) -> Result<(), Refusal>
    ensures { Shows place s.now area.old (code result) area.new }
{
    enough(s)?;
    let case = read(s).case_at(place as usize)?;
    if area.len() < fields::size_of(case) {
        return Err(Refusal::Space);
    }
    fields::write(area, case);
    Ok(())
}

// The number of cases, the greatest upper end in Pa, and the first place that has it, 0 for none.
pub fn totals(s: &[u8]) -> Result<Totals, Refusal>
    ensures { TotalsOf s.now result }
{
    enough(s)?;
    Ok(totals::afresh(&sheet_bytes::unpack(s)))
}

// The frames of the cases by column, into the area's first bytes.
pub fn store(s: &[u8], area: &mut [u8]) -> Result<(), Refusal>
    ensures { Archives s.now area.old (code result) area.new }
{
    enough(s)?;
    archive::store(&sheet_bytes::unpack(s), area)?;
    Ok(())
}
