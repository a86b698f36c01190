// Writing frames: a frame from its fields, and the one spelling of a case.
#![tactic(auto)]

ghost use Rattle.std.specs.Prelude.{◌≡◌, ◌≤◌, ◌*◌, length};
ghost use Rattle.std.proofs.lemmas.List.Edits.{sets};
ghost use Rattle.hexadecimals.specs.Written.{digits_of};
ghost use Rattle.fields.specs.Bytes.{frame_bytes};
ghost use Rattle.writable.specs.Steps.{needed_for, Written};
ghost use Rattle.writing.specs.Spelling.{as_spelled, spelling};
ghost use Rattle.writing.specs.Entries.{FromFields, SpellsFrame, SpellsLine};

use guidance::Case;
use refusals::Fault;
use writable::Refusal;

// Without a heat of its own if the given one is the table's.
#[tactic(auto, unfolding(crate::specs::Spelling::as_spelled, crate::specs::Spelling::spelled_heat))]
fn as_spelled(c: Case) -> Case
    ensures { result ≡ as_spelled c }
{
    let unheated = Case { heat: 0, ..c };
    if c.heat == guidance::heat_of(unheated) {
        unheated
    } else {
        c
    }
}

// The digits of the frame of a case, which has N bytes, into the area's first bytes. Each length has its own array, so that the loop over it is unrolled.
fn put_digits<const N: usize>(area: &mut [u8], c: Case)
    requires { (length (frame_bytes c) ≡ N) × (2 * N ≤ length area.old) }
    ensures { area.new ≡ sets area.old 0 (digits_of (frame_bytes c)) }
{
    let mut frame = [0u8; N];
    fields::write(&mut frame, c);
    hexadecimals::write(&frame, area);
}

// The spelling of a case, into the area's first bytes.
fn put_spelling(area: &mut [u8], c: Case)
    requires { length (spelling c) ≤ length area.old }
    ensures { area.new ≡ sets area.old 0 (spelling c) }
{
    let spelled = as_spelled(c);
    if spelled.air == guidance::STANDARD {
        put_digits::<22>(area, spelled);
    } else {
        put_digits::<24>(area, spelled);
    }
}

// The characters of the spelling of a case that passed its own tests.
fn spelling_size(found: Result<Case, Fault>) -> usize
    ensures { result ≡ needed_for spelling found }
{
    2 * found.map_or(0, fields::size_of)
}

// The spelling of a case that passed its own tests.
fn write_spelling(found: Result<Case, Fault>, area: &mut [u8]) -> Result<Case, Refusal>
    ensures { Written spelling found area.old result area.new }
{
    let c = writable::place(found, spelling_size(found), area.len())?;
    put_spelling(area, c);
    Ok(c)
}

// A frame from its fields, whatever their numbers, into the area's first bytes.
pub fn from_fields(c: Case, area: &mut [u8]) -> Result<Case, Refusal>
    ensures { FromFields c area.old result area.new }
{
    writable::write_frame(limits::check(c), area)
}

// The spelling of a case given as a frame's bytes, into the area's first bytes.
pub fn spell_frame(frame: &[u8], area: &mut [u8]) -> Result<Case, Refusal>
    ensures { SpellsFrame frame.now area.old result area.new }
{
    write_spelling(frame::check_frame(frame), area)
}

// The spelling of a case given as a line, into the area's first bytes.
pub fn spell_line(line: &[u8], area: &mut [u8]) -> Result<Case, Refusal>
    ensures { SpellsLine line.now area.old result area.new }
{
    write_spelling(frame::check_line(line), area)
}
