// Why a figure is what it is, for C and other languages.
ghost use Rattle.linked.specs.Reasons.{Reasoned};

// The rules that gave ΔP and I of a case given as a frame's bytes, by their numbers.
#[unsafe(no_mangle)]
pub extern "C" fn yakepuhi_rules(frame: &[u8], pressure: &mut u64, impulse: &mut u64) -> u64
    ensures { Reasoned frame.now pressure.old impulse.old result pressure.new impulse.new }
{
    linked::reasons::yakepuhi_rules(frame, pressure, impulse)
}
