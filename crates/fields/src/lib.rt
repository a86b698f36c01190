// The fields of a case frame: read from its 22 or 24 bytes, and written into them.
#![tactic(auto)]

ghost use Rattle.std.specs.Prelude.{◌≡◌, ◌≤◌, length};
ghost use Rattle.std.proofs.lemmas.List.Edits.{sets};
ghost use Rattle.byte_numbers.specs.Storing.{Stored};
ghost use Rattle.fields.specs.Bytes.{air_in, fields_of, settings, first_bytes, frame_bytes, long_frame};

use guidance::Case;

// The air pressure: the last two of 24 bytes, else the standard one.
fn air_in(frame: &[u8]) -> u64
    ensures { result ≡ air_in frame.now }
{
    if frame.len() == 24 {
        byte_numbers::number_at::<2>(frame, 22)
    } else {
        guidance::STANDARD
    }
}

// The fields of a frame, whatever they hold.
pub fn read(frame: &[u8]) -> Case
    requires { 22 ≤ length frame.now }
    ensures { result ≡ fields_of frame.now }
{
    // first: a branch behind the other fields keeps their bytes from being loaded as words
    let air = air_in(frame);
    Case {
        substance: byte_numbers::number_at::<1>(frame, 0),
        state: byte_numbers::number_at::<1>(frame, 1),
        placement: byte_numbers::number_at::<1>(frame, 2),
        surroundings: byte_numbers::number_at::<1>(frame, 3),
        mass: byte_numbers::number_at::<4>(frame, 4),
        mean: byte_numbers::number_at::<2>(frame, 8),
        stoichiometric: byte_numbers::number_at::<2>(frame, 10),
        heat: byte_numbers::number_at::<4>(frame, 12),
        distance: byte_numbers::number_at::<4>(frame, 16),
        body: byte_numbers::number_at::<2>(frame, 20),
        air,
    }
}

// The bytes that the frame of a case has.
pub fn size_of(c: Case) -> usize
    ensures { result ≡ length (frame_bytes c) }
{
    if c.air == guidance::STANDARD { 22 } else { 24 }
}

// The four settings of a case, into the first four bytes of s. A case and an old case hold them as fields of their own: a struct of four would be filled at each call.
pub fn write_settings(s: &mut [u8], substance: u64, state: u64, placement: u64, surroundings: u64)
    requires { 4 ≤ length s.old }
    ensures { Stored s.old 0 (settings substance state placement surroundings) s.new }
{
    byte_numbers::put::<1>(s, 0, substance);
    byte_numbers::put::<1>(s, 1, state);
    byte_numbers::put::<1>(s, 2, placement);
    byte_numbers::put::<1>(s, 3, surroundings);
}

// All but the air pressure of a case, into the first 22 bytes of s.
pub fn write_first(s: &mut [u8], c: Case)
    requires { 22 ≤ length s.old }
    ensures { Stored s.old 0 (first_bytes c) s.new }
{
    write_settings(s, c.substance, c.state, c.placement, c.surroundings);
    byte_numbers::put::<4>(s, 4, c.mass);
    byte_numbers::put::<2>(s, 8, c.mean);
    byte_numbers::put::<2>(s, 10, c.stoichiometric);
    byte_numbers::put::<4>(s, 12, c.heat);
    byte_numbers::put::<4>(s, 16, c.distance);
    byte_numbers::put::<2>(s, 20, c.body);
}

// The frame of a case in 24 bytes, the standard pressure written out too.
pub fn write_long(s: &mut [u8], c: Case)
    requires { 24 ≤ length s.old }
    ensures { Stored s.old 0 (long_frame c) s.new }
{
    write_first(s, c);
    byte_numbers::put::<2>(s, 22, c.air);
}

// The frame of a case, into the first 22 or 24 bytes of s.
pub fn write(s: &mut [u8], c: Case)
    requires { length (frame_bytes c) ≤ length s.old }
    ensures { s.new ≡ sets s.old 0 (frame_bytes c) }
{
    if c.air != guidance::STANDARD {
        write_long(s, c);
    } else {
        write_first(s, c);
    }
}
