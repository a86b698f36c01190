// The ring of a threshold, for C and other languages.
ghost use Rattle.ring.specs.Ring.{FromFrame, FromLine};
ghost use Rattle.linked.specs.Rings.{Given, Answered};

use refusals::Reason;
use ring::{Refusal, Ring};

// A ring's distances into the two numbers, or a refusal's number.
fn give(answer: Result<Ring, Refusal>, inner: &mut u64, outer: &mut u64) -> u64
    ensures { Given answer inner.old outer.old result inner.new outer.new }
{
    match answer {
        Ok(ring) => {
            *inner = ring.inner;
            *outer = ring.outer;
            0
        }
        Err(r) => r.number(),
    }
}

// The ring of a threshold in pascals, in cm, for a case given as a frame's bytes.
pub fn yakepuhi_ring_from_frame(
    frame: &[u8],
    threshold: u64,
    inner: &mut u64,
    outer: &mut u64,
) -> u64
    ensures { Answered (FromFrame frame.now threshold) inner.old outer.old result inner.new outer.new }
{
    give(ring::from_frame(frame, threshold), inner, outer)
}

// The same for a case given as a line.
pub fn yakepuhi_ring_from_line(line: &[u8], threshold: u64, inner: &mut u64, outer: &mut u64) -> u64
    ensures { Answered (FromLine line.now threshold) inner.old outer.old result inner.new outer.new }
{
    give(ring::from_line(line, threshold), inner, outer)
}
