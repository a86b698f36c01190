// The old form's lines, in and back, for C and other languages.
ghost use Rattle.linked.specs.OldLines.{CameIn, WentBack};

// The frame of an old line.
#[unsafe(no_mangle)]
pub extern "C" fn yakepuhi_frame_from_old(line: &[u8], area: &mut [u8]) -> u64
    ensures { CameIn line.now area.old result area.new }
{
    linked::old_lines::yakepuhi_frame_from_old(line, area)
}

// The old line of a frame.
#[unsafe(no_mangle)]
pub extern "C" fn yakepuhi_old_from_frame(frame: &[u8], area: &mut [u8]) -> u64
    ensures { WentBack frame.now area.old result area.new }
{
    linked::old_lines::yakepuhi_old_from_frame(frame, area)
}
