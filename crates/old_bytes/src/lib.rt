// The 58 bytes of an old case: four settings, then six fields of a tag and a double, high byte first.
#![tactic(auto)]

ghost use Rattle.std.specs.Prelude.{◌≡◌, false, ◌+◌, ◌≤◌, length};
ghost use Rattle.std.proofs.lemmas.List.Edits.{sets};
ghost use Rattle.byte_numbers.specs.Storing.{Stored};
ghost use Rattle.doubles.specs.Doubles.{unusable};
ghost use Rattle.old_case.specs.Fields.{value_of};
ghost use Rattle.old_case.specs.Cases.{unusable_in};
ghost use Rattle.old_bytes.specs.Bytes.{double_at, old_of, misplaced, field_bytes, old_bytes};

use old_case::{OldCase, OldField};

fn double_at(s: &[u8], at: usize) -> f64
    requires { at + 8 ≤ length s.now }
    ensures { result ≡ double_at s.now at }
{
    doubles::of_bits(byte_numbers::number_at::<8>(s, at))
}

// The case in 58 bytes, whatever its tags and doubles are.
pub fn read(s: &[u8]) -> OldCase
    requires { length s.now ≡ 58 }
    ensures { result ≡ old_of s.now }
{
    OldCase {
        substance: byte_numbers::number_at::<1>(s, 0),
        state: byte_numbers::number_at::<1>(s, 1),
        placement: byte_numbers::number_at::<1>(s, 2),
        surroundings: byte_numbers::number_at::<1>(s, 3),
        mass: double_at(s, 5),
        mean: double_at(s, 14),
        stoichiometric: double_at(s, 23),
        heat: double_at(s, 32),
        distance: double_at(s, 41),
        body: double_at(s, 50),
    }
}

// Test 15: one of the six tags is not its field's.
#[tactic(auto, unfolding(crate::specs::Bytes::misplaced))]
pub fn is_misplaced(s: &[u8]) -> bool
    requires { length s.now ≡ 58 }
    ensures { result ≡ misplaced s.now }
{
    s[4] != 1 || s[13] != 2 || s[22] != 3 || s[31] != 4 || s[40] != 5 || s[49] != 6
}

// A field's nine bytes, from a place on: its tag and its double.
fn put_field(s: &mut [u8], at: usize, f: OldField)
    requires { (at + 9 ≤ length s.old) × (unusable (value_of f) ≡ false) }
    ensures { Stored s.old at (field_bytes f) s.new }
{
    byte_numbers::put::<1>(s, at, f.tag());
    byte_numbers::put::<8>(s, at + 1, f.value().to_bits());
}

// The 58 bytes of an old case, into the first bytes of s.
pub fn write(s: &mut [u8], o: OldCase)
    requires { (58 ≤ length s.old) × (unusable_in o ≡ false) }
    ensures { s.new ≡ sets s.old 0 (old_bytes o) }
{
    fields::write_settings(s, o.substance, o.state, o.placement, o.surroundings);
    put_field(s, 4, OldField::MassKg(o.mass));
    put_field(s, 13, OldField::MeanG(o.mean));
    put_field(s, 22, OldField::StoichiometricG(o.stoichiometric));
    put_field(s, 31, OldField::HeatMj(o.heat));
    put_field(s, 40, OldField::DistanceM(o.distance));
    put_field(s, 49, OldField::BodyKg(o.body));
}
