// The substances (003, Table 1): β and class by number.
ghost use Rattle.std.specs.Prelude.{◌≡◌};
ghost use Rattle.guidance.specs.Substances.{beta_of, class_of};

// β in hundredths by number (003, Table 1); 0 where there is none.
static BETAS: [u64; 76] = [
    0, 110, 103, 273, 44, 41, 105, 25, 70, 62, 30, 67, 62, 104, 100, 100, 100, 105, 104, 32, 108,
    107, 100, 66, 77, 0, 77, 82, 56, 65, 100, 51, 42, 100, 38, 100, 70, 53, 79, 76, 71, 100, 77,
    34, 52, 62, 69, 0, 79, 69, 100, 46, 43, 100, 84, 9, 100, 80, 42, 88, 100, 100, 42, 100, 100,
    114, 100, 53, 12, 91, 23, 92, 52, 90, 25, 14,
];

#[tactic(auto, unfolding(crate::specs::Substances::betas, crate::specs::Substances::beta_of))]
pub fn beta_of(substance: u64) -> u64
    ensures { result ≡ beta_of substance }
{
    BETAS.get(substance as usize).copied().unwrap_or(0)
}

// 1 to 4: the row of the table of ranges.
#[tactic(auto, using(std::proofs::lemmas::Bool::Decides::nat_tests), unfolding(crate::specs::Substances::class_of))]
pub fn class_of(substance: u64) -> u64
    ensures { result ≡ class_of substance }
{
    match substance {
        0..=10 => 1,
        11..=27 => 2,
        28..=57 => 3,
        _ => 4,
    }
}
