// The case frame and the line that spells it: refusals in their order, the verdict.
#![tactic(auto)]

ghost use Rattle.std.specs.Prelude.{◌≡◌, ◌*◌, ◌≤◌, cond, length};
ghost use Rattle.guidance.specs.CloudWords.{Heated};
ghost use Rattle.hexadecimals.specs.Digits.{all_digits, bytes_of};
ghost use Rattle.refusals.specs.declared.Fault.TheVariants.{Digit};
ghost use Rattle.fields.specs.Bytes.{fields_of};
ghost use Rattle.frame.specs.declared.Refusal.TheVariants.{Faulty};
ghost use Rattle.frame.specs.Refusals.{number, word, told};
ghost use Rattle.frame.specs.Tests.{beyond};
ghost use Rattle.frame.specs.Verdicts.{frame_verdict, line_verdict};
ghost use Rattle.frame.specs.Checks.{frame_checked, line_read, line_checked, placed};

use guidance::{Case, Setting};
use refusals::{Fault, Reason};

// The bytes of an answer frame.
pub const ANSWER: usize = 77;

// Why a case has no answer: a fault of its own, then tests 7 and 8.
#[derive(Clone, Copy, Debug, PartialEq, Eq)]
pub enum Refusal {
    Faulty(Fault),
    Beyond,
    Space,
}

impl From<Fault> for Refusal {
    ghost from_gives = { λ f r. r ≡ Faulty f };

    fn from(f: Fault) -> Refusal {
        Refusal::Faulty(f)
    }
}

impl Reason for Refusal {
    ghost number_told = { number };

    ghost word_told = { word };

    ghost tells = { told };

    fn number(self) -> u64 {
        match self {
            Refusal::Faulty(f) => f.number(),
            Refusal::Beyond => 7,
            Refusal::Space => 8,
        }
    }

    fn word(self) -> [u8; 12] {
        match self {
            Refusal::Faulty(f) => f.word(),
            Refusal::Beyond => *b"beyond\0\0\0\0\0\0",
            Refusal::Space => *b"space\0\0\0\0\0\0\0",
        }
    }
}

// Tests 1 to 6 of a frame given as bytes.
pub fn check_frame(frame: &[u8]) -> Result<Case, Fault>
    ensures { result ≡ frame_checked frame.now }
{
    match frame.len() {
        22 | 24 => limits::check(fields::read(frame)),
        _ => Err(Fault::Length),
    }
}

// Test 2 of a line of two characters for each of N bytes, and the case of the frame that it spells. Each length has its own array, so that the loops over it are unrolled.
fn spelled<const N: usize>(line: &[u8]) -> Result<Case, Fault>
    requires { (22 ≤ N) × (N ≤ 24) × (length line.now ≡ 2 * N) }
    ensures { result ≡ cond (all_digits line.now) (Ok (fields_of (bytes_of line.now))) (Err Digit) }
{
    let frame = hexadecimals::spelled::<N>(line).ok_or(Fault::Digit)?;
    Ok(fields::read(&frame))
}

// Tests 1 and 2 of a line, and the case of the frame that it spells.
fn read_line(line: &[u8]) -> Result<Case, Fault>
    ensures { result ≡ line_read line.now }
{
    match line.len() {
        44 => spelled::<22>(line),
        48 => spelled::<24>(line),
        _ => Err(Fault::Length),
    }
}

// Tests 1 to 6 of a line. A frame and a line are both slices, so that here and in each entry a name tells which.
pub fn check_line(line: &[u8]) -> Result<Case, Fault>
    ensures { result ≡ line_checked line.now }
{
    limits::check(read_line(line)?)
}

// Test 7, for a case that passed tests 1 to 6.
pub fn is_beyond(c: Case) -> bool
    requires { Heated c }
    ensures { result ≡ beyond c }
{
    Setting::in_own_air(c).is_beyond()
}

// Tests 7 and 8.
#[tactic(auto, unfolding(crate::specs::Verdicts::last_tests, refusals::specs::Order::first_of))]
fn place(c: Case, room: usize) -> Result<Case, Refusal>
    requires { Heated c }
    ensures { result ≡ placed c room }
{
    if is_beyond(c) {
        return Err(Refusal::Beyond);
    }
    if room < ANSWER {
        return Err(Refusal::Space);
    }
    Ok(c)
}

// The verdict on a frame given as bytes, with `room` bytes for its answer.
pub fn decide_frame(frame: &[u8], room: usize) -> Result<Case, Refusal>
    ensures { result ≡ frame_verdict frame.now room }
{
    place(check_frame(frame)?, room)
}

// The verdict on a line, with `room` bytes for its answer.
pub fn decide_line(line: &[u8], room: usize) -> Result<Case, Refusal>
    ensures { result ≡ line_verdict line.now room }
{
    place(check_line(line)?, room)
}
