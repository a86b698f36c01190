// The figures of an answer frame, held against the values of the data.
ghost use Rattle.std.specs.Prelude.{◌≡◌, ◌≤◌, ◌<◌, ◌^◌};
ghost use Rattle.vectors.specs.Figures.{contained, closed, wave_right, raised_word, raised, probit_right, damage_right, right};

use crate::table;
use crate::table::Entry;
use byte_numbers::number_at;
use scan::Word;

// The ends of a figure.
#[derive(Clone, Copy, Default)]
pub struct Interval {
    pub lower: u64,
    pub upper: u64,
}

impl Interval {
    // Whether lower·unit ≤ value ≤ upper·unit.
    fn contains(self, value: u64, unit: u64) -> bool
        ensures { result ≡ contained self.lower self.upper value unit }
    {
        let value = u128::from(value);
        let unit = u128::from(unit);
        u128::from(self.lower) * unit <= value && value <= u128::from(self.upper) * unit
    }

    // Whether the width is within 2 units and a part in 100,000 of the lower end.
    fn is_closed(self) -> bool
        requires lower { self.lower < 2 ^ 32 }
        requires upper { self.upper < 2 ^ 32 }
        ensures { result ≡ closed self.lower self.upper }
    {
        100_000 * self.upper <= 200_000 + self.lower + 100_000 * self.lower
    }

    // A pressure or an impulse with twelve places of the value.
    fn is_wave(self, value: u64) -> bool
        requires lower { self.lower < 2 ^ 32 }
        requires upper { self.upper < 2 ^ 32 }
        ensures { result ≡ wave_right self.lower self.upper value }
    {
        self.contains(value, 1_000_000_000_000) && self.is_closed()
    }

    // A probit with nine places of its raised thousandths.
    fn is_probit(self, value: u64) -> bool
        requires { self.lower < 2 ^ 33 }
        ensures { result ≡ probit_right self.lower self.upper value }
    {
        self.contains(value, 1_000_000_000) && self.upper <= self.lower + 2
    }

    // Whether these damages are the table's readings at a probit's raised ends.
    fn is_damage(self, probit: Interval, table: &[Entry; 108]) -> bool
        ensures { result ≡ damage_right self.lower self.upper probit.lower probit.upper table.now }
    {
        self.lower == table::reading(table, probit.lower)
            && self.upper == table::reading(table, probit.upper)
    }
}

// A word in two's complement, and 200,000 more, so that a probit's thousandths are never below zero.
pub(crate) fn raised_word(w: u64) -> u64
    requires { w < 2 ^ 32 }
    ensures value { result ≡ raised_word w }
    ensures small { result < 2 ^ 33 }
{
    if w < 0x8000_0000 {
        w + 200_000
    } else {
        (w + 200_000).saturating_sub(0x1_0000_0000)
    }
}

// A number of the data behind its sign, and `base` more.
pub(crate) fn raised(base: u64, w: Word) -> u64
    requires { base ≤ 200000000000000 }
    ensures { result ≡ raised base w.lead w.value }
{
    if w.lead == b'-' {
        base.saturating_sub(w.value)
    } else {
        base + w.value
    }
}

// The i-th figure of an answer from 0 on, in the order of the data: pressure, impulse, five probits. A number, since its place follows from it.
#[tactic(auto, unfolding(crate::specs::Figures::right))]
pub(crate) fn is_right(area: &[u8; 80], i: usize, w: Word, table: &[Entry; 108]) -> bool
    requires { i < 7 }
    ensures { result ≡ right area.now i w.lead w.value table.now }
{
    let lower = number_at::<4>(area, 1 + 8 * i);
    let upper = number_at::<4>(area, 5 + 8 * i);
    if i < 2 {
        return Interval { lower, upper }.is_wave(w.value);
    }
    let probit = Interval {
        lower: raised_word(lower),
        upper: raised_word(upper),
    };
    let damage = Interval {
        lower: number_at::<2>(area, 49 + 4 * i),
        upper: number_at::<2>(area, 51 + 4 * i),
    };
    probit.is_probit(raised(200_000_000_000_000, w)) && damage.is_damage(probit, table)
}
