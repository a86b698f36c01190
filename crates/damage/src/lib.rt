// Table 3 of 003: the damage that a probit reads.
#![tactic(auto)]

ghost use Rattle.std.specs.Prelude.{◌≡◌};
ghost use Rattle.damage.specs.Damage.{not_above, table, tenths_of_percent, damage};
ghost use Rattle.damage.specs.laws.Readings.{from_zero};

// The probits of 1 to 99 percent, then of 99.1 to 99.9 percent, in hundredths (003, Table 3).
static PROBITS: [u16; 108] = [
    267, 295, 312, 325, 338, 345, 352, 359, 366, 372, 377, 382, 386, 392, 396, 401, 405, 408, 412,
    416, 419, 423, 426, 429, 433, 436, 439, 442, 445, 448, 450, 453, 456, 459, 461, 464, 467, 469,
    472, 475, 477, 480, 482, 485, 487, 490, 492, 495, 497, 500, 503, 505, 508, 510, 513, 515, 518,
    520, 523, 525, 528, 531, 533, 536, 539, 541, 544, 547, 550, 552, 555, 558, 561, 564, 567, 571,
    574, 577, 581, 584, 588, 592, 595, 599, 604, 608, 613, 618, 623, 628, 634, 641, 648, 655, 664,
    675, 688, 705, 733, 737, 741, 746, 751, 758, 765, 775, 788, 809,
];

// How many entries of the table are not above p thousandths.
fn rank(p: u64) -> u64
    ensures { result ≡ not_above table p }
{
    PROBITS.partition_point(|entry| 10 * u64::from(*entry) <= p) as u64
}

// The damage at p thousandths, from 0 up. Outside the table, where most probits lie, nothing is looked up.
fn reading(p: u64) -> u64
    ensures { result ≡ tenths_of_percent (not_above table p) }
{
    match p {
        0..2670 => 0,
        2670..8090 => match rank(p) {
            n @ 0..=99 => 10 * n,
            n => 891 + n,
        },
        _ => 999,
    }
}

// A probit, or 0 where it is below zero.
fn from_zero(probit: i64) -> u64
    ensures { result ≡ from_zero probit }
{
    u64::try_from(probit).unwrap_or(0)
}

// The damage at a probit in thousandths, in tenths of a percent.
pub fn damage_at(probit: i64) -> u64
    ensures { result ≡ damage probit }
{
    reading(from_zero(probit))
}

// The damage at a probit beside another one, whose damage is known: the table is in hundredths, and the two mostly have the same.
pub fn damage_beside(known: i64, found: u64, probit: i64) -> u64
    requires { found ≡ damage known }
    ensures { result ≡ damage probit }
{
    if from_zero(known) / 10 == from_zero(probit) / 10 {
        found
    } else {
        damage_at(probit)
    }
}
