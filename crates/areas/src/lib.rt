// An area that a test program lends, full of marks, and what of it was written into.
#![tactic(auto)]

ghost use Rattle.std.specs.Prelude.{◌≡◌, ◌≤◌, cond, ltb, min, length, take};
ghost use Rattle.areas.specs.Areas.{written_in, marks_of};

// What each byte of an area holds before it is lent: no digit of a text. A frame that ends in it is taken for a byte shorter.
pub const MARK: u8 = 0x5f;

// A room that is asked for, cut to what the area has.
pub fn room_of(asked: u64, area: usize) -> usize
    ensures { (result ≡ cond (ltb asked area) asked area) × (result ≤ area) }
{
    asked.min(area as u64) as usize
}

// So much of the area.
pub fn lend(area: &mut [u8], asked: u64) -> &mut [u8]
    ensures { result.now ≡ take (min asked (length area.old)) area.old }
{
    let room = room_of(asked, area.len());
    &mut area[..room]
}

// How many marks the area ends in.
fn marks_of(area: &[u8]) -> usize
    ensures { result ≡ marks_of area.now }
{
    area.iter().rev().take_while(|b| **b == MARK).count()
}

// The bytes up to the last that is no mark.
pub fn written(area: &[u8]) -> &[u8]
    ensures part { result.now ≡ take (written_in area.now) area.now }
    ensures size { length result.now ≡ written_in area.now }
{
    &area[..area.len() - marks_of(area)]
}
