// The old form's lines, in and back, for C and other languages.
ghost use Rattle.linked.specs.OldLines.{CameIn, WentBack};

// The frame of an old line.
pub fn yakepuhi_frame_from_old(line: &[u8], area: &mut [u8]) -> u64
    ensures { CameIn line.now area.old result area.new }
{
    refusals::code_of(from_old::from_line(line, area))
}

// The old line of a frame.
pub fn yakepuhi_old_from_frame(frame: &[u8], area: &mut [u8]) -> u64
    ensures { WentBack frame.now area.old result area.new }
{
    refusals::code_of(to_old::to_line(frame, area))
}
