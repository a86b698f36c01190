// The places of a study sheet in bytes: 32 each, one after the other.
#![tactic(auto)]

ghost use Rattle.std.specs.Prelude.{◌≡◌, ◌≤◌, ◌+◌, ◌*◌, length};
ghost use Rattle.std.proofs.lemmas.List.Edits.{sets};
ghost use Rattle.places.specs.Places.{stands_for};
ghost use Rattle.sheet_bytes.specs.Packing.{air_word, air_of_word, place_bytes, sheet_bytes, held_in, read_at, unpacked, size};

use places::{Held, Places};
use std::array;

// The bytes of a sheet.
pub const SIZE: usize = 2048;

// The bytes of a place.
const PLACE: usize = 32;

// The air pressure as a place keeps it.
#[tactic(auto, using(std::proofs::lemmas::Bool::Decides::nat_tests), unfolding(crate::specs::Packing::air_word))]
fn air_word(air: u64) -> u64
    ensures { result ≡ air_word air }
{
    if air == guidance::STANDARD { 0 } else { air }
}

#[tactic(auto, using(std::proofs::lemmas::Bool::Decides::nat_tests), unfolding(crate::specs::Packing::air_of_word))]
fn air_of_word(n: u64) -> u64
    ensures { result ≡ air_of_word n }
{
    if n == 0 { guidance::STANDARD } else { n }
}

// The 32 bytes of a place.
fn put_place(s: &mut [u8], place: Option<Held>)
    requires { length s.old ≡ 32 }
    ensures { s.new ≡ place_bytes place }
{
    s.fill(0);
    if let Some(Held { case, upper }) = place {
        byte_numbers::put::<1>(s, 0, 1);
        fields::write_first(&mut s[1..23], case);
        byte_numbers::put::<4>(s, 23, upper);
        byte_numbers::put::<2>(s, 27, air_word(case.air));
    }
}

// What 32 bytes say.
fn place_of(s: &[u8]) -> Option<Held>
    requires { length s.now ≡ 32 }
    ensures { result ≡ held_in s.now }
{
    if s[0] == 0 {
        return None;
    }
    let mut case = fields::read(&s[1..23]);
    case.air = air_of_word(byte_numbers::number_at::<2>(s, 27));
    let upper = byte_numbers::number_at::<4>(s, 23);
    Some(Held { case, upper })
}

// The places that 2,048 bytes say, whatever they hold.
pub fn unpack(s: &[u8]) -> Places
    requires { size ≤ length s.now }
    ensures { result.all ≡ unpacked 64 s.now }
{
    let all = array::from_fn(
        |i| -> Option<Held>
            requires { 32 * i + 32 ≤ length s.now }
            ensures { result ≡ read_at s.entry.now i }
        { place_of(&s[PLACE * i..PLACE * i + PLACE]) },
    );
    Places { all }
}

// The places, into the first 2,048 bytes.
pub fn pack(s: &mut [u8], places: &Places)
    requires { size ≤ length s.old }
    ensures { s.new ≡ sets s.old 0 (sheet_bytes (stands_for places.now)) }
{
    // by index: of what is written through `chunks_exact_mut` no more is known than its length
    for (i, place) in places.all.iter().enumerate() {
        put_place(&mut s[PLACE * i..PLACE * i + PLACE], *place);
    }
}
