// Why a figure is what it is, for C and other languages.
ghost use Rattle.linked.specs.Reasons.{Given, Reasoned};

use frame::Refusal;
use refusals::Reason;
use rules::Rules;

// The rules' numbers into the two, or a refusal's number.
fn tell(answer: Result<Rules, Refusal>, pressure: &mut u64, impulse: &mut u64) -> u64
    ensures { Given answer pressure.old impulse.old result pressure.new impulse.new }
{
    match answer {
        Ok(rules) => {
            *pressure = rules.pressure.number();
            *impulse = rules.impulse.number();
            0
        }
        Err(r) => r.number(),
    }
}

// The rules that gave ΔP and I of a case given as a frame's bytes, by their numbers.
pub fn yakepuhi_rules(frame: &[u8], pressure: &mut u64, impulse: &mut u64) -> u64
    ensures { Reasoned frame.now pressure.old impulse.old result pressure.new impulse.new }
{
    tell(rules::from_frame(frame), pressure, impulse)
}
