// The speed ranges (003, Table 2): by class and surroundings.
ghost use Rattle.std.specs.Prelude.{◌≡◌, ◌≤◌};
ghost use Rattle.guidance.specs.Ranges.{range_at};

// A row for each class, a column for each surroundings, both 1 to 4 (003, Table 2).
static RANGES: [[u64; 4]; 4] = [
    // class 1
    [1, 1, 2, 3],
    // class 2
    [1, 2, 3, 4],
    // class 3
    [2, 3, 4, 5],
    // class 4
    [3, 4, 5, 6],
];

#[tactic(auto, unfolding(crate::specs::Ranges::ranges, crate::specs::Ranges::range_at))]
pub fn range_at(class: u64, surroundings: u64) -> u64
    requires { (1 ≤ class) × (class ≤ 4) × (1 ≤ surroundings) × (surroundings ≤ 4) }
    ensures { result ≡ range_at class surroundings }
{
    RANGES[class as usize - 1][surroundings as usize - 1]
}
