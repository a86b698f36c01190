// Frames from fields, and the one spelling of a case, for C and other languages.
ghost use Rattle.std.specs.Prelude.{length};
ghost use Rattle.fields.specs.Bytes.{frame_bytes};
ghost use Rattle.writing.specs.Spelling.{spelling};
ghost use Rattle.writing.specs.Entries.{fields_verdict, frame_verdict, line_verdict};
ghost use Rattle.linked.specs.Writings.{WroteCase, of_numbers};

use guidance::Case;

// The frame of eleven numbers.
pub fn yakepuhi_frame_from_fields(
    substance: u64,
    state: u64,
    placement: u64,
    surroundings: u64,
    mass: u64,
    mean: u64,
    stoichiometric: u64,
    heat: u64,
    distance: u64,
    body: u64,
    air: u64,
    area: &mut [u8],
) -> u64
    ensures { WroteCase frame_bytes (fields_verdict (of_numbers substance state placement surroundings mass mean stoichiometric heat distance body air) (length area.old)) area.old result area.new }
{
    let c = Case {
        substance,
        state,
        placement,
        surroundings,
        mass,
        mean,
        stoichiometric,
        heat,
        distance,
        body,
        air,
    };
    refusals::code_of(writing::from_fields(c, area))
}

// The spelling of a case given as a frame's bytes.
pub fn yakepuhi_spell_frame(frame: &[u8], area: &mut [u8]) -> u64
    ensures { WroteCase spelling (frame_verdict frame.now (length area.old)) area.old result area.new }
{
    refusals::code_of(writing::spell_frame(frame, area))
}

// The spelling of a case given as a line.
pub fn yakepuhi_spell_line(line: &[u8], area: &mut [u8]) -> u64
    ensures { WroteCase spelling (line_verdict line.now (length area.old)) area.old result area.new }
{
    refusals::code_of(writing::spell_line(line, area))
}
