// The ring of a threshold, for C and other languages.
ghost use Rattle.ring.specs.Ring.{FromFrame, FromLine};
ghost use Rattle.linked.specs.Rings.{Answered};

// The ring of a threshold in pascals, in cm, for a case given as a frame's bytes.
#[unsafe(no_mangle)]
pub extern "C" fn yakepuhi_ring_from_frame(
    frame: &[u8],
    threshold: u64,
    inner: &mut u64,
    outer: &mut u64,
) -> u64
    ensures { Answered (FromFrame frame.now threshold) inner.old outer.old result inner.new outer.new }
{
    linked::rings::yakepuhi_ring_from_frame(frame, threshold, inner, outer)
}

// The same for a case given as a line.
#[unsafe(no_mangle)]
pub extern "C" fn yakepuhi_ring_from_line(
    line: &[u8],
    threshold: u64,
    inner: &mut u64,
    outer: &mut u64,
) -> u64
    ensures { Answered (FromLine line.now threshold) inner.old outer.old result inner.new outer.new }
{
    linked::rings::yakepuhi_ring_from_line(line, threshold, inner, outer)
}
