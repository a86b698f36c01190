// Table 3 of the data, and its readings.
ghost use Rattle.std.specs.Prelude.{◌≡◌, ◌≤◌};
ghost use Rattle.vectors.specs.Table.{reached, rank, tenths_at};

// An entry: its tenths of a percent, and its probit in hundredths.
#[derive(Clone, Copy)]
pub struct Entry {
    pub tenths: u64,
    pub hundredths: u64,
}

fn is_reached(hundredths: u64, probit: u64) -> bool
    ensures { result ≡ reached hundredths probit }
{
    200_000 <= probit && hundredths <= (probit - 200_000) / 10
}

// How many of the entries a raised probit reaches.
fn rank_of(table: &[Entry; 108], probit: u64) -> usize
    ensures rank { result ≡ rank probit table.now }
    ensures within { result ≤ 108 }
{
    table
        .iter()
        .take_while(|e| is_reached(e.hundredths, probit))
        .count()
}

// The tenths of the last entry that a raised probit reaches, 0 where it reaches none.
pub(crate) fn reading(table: &[Entry; 108], probit: u64) -> u64
    ensures { result ≡ tenths_at table.now (rank probit table.now) }
{
    match rank_of(table, probit) {
        0 => 0,
        n => table[n - 1].tenths,
    }
}
