// A study sheet stored by column: the frames of its cases in order, without the gaps, each in 24 bytes.
#![tactic(auto)]

ghost use Rattle.std.specs.Prelude.{◌≤◌, ◌≡◌, length};
ghost use Rattle.places.specs.Places.{stands_for};
ghost use Rattle.columns.specs.Stored.{Stores};
ghost use Rattle.archive.specs.Archived.{archived};
ghost use Rattle.archive.specs.Steps.{Gathered};

use columns::{FRAME, FRAMES, Shortage};
use places::Places;

// The bytes of as many frames as there are places.
const SIZE: usize = FRAME * FRAMES;

// The frames of the cases in order; how many there are.
fn gather(places: &Places, frames: &mut [u8]) -> usize
    requires { length frames.old ≡ 1536 }
    ensures { (result ≤ 64) × Gathered (stands_for places.now) frames.old result frames.new }
{
    // counted beside the loop, since it is what is handed back
    let mut n = 0;
    for place in &places.all {
        if let Some(held) = place {
            fields::write_long(&mut frames[FRAME * n..FRAME * n + FRAME], held.case);
            n += 1;
        }
    }
    n
}

// The number of cases and the columns of their frames, into the area's first bytes; how many bytes that is.
pub fn store(places: &Places, area: &mut [u8]) -> Result<usize, Shortage>
    ensures { Stores (archived (stands_for places.now)) area.old result area.new }
{
    let mut frames = [0; SIZE];
    let n = gather(places, &mut frames);
    columns::store(n, &frames[..FRAME * n], area)
}
