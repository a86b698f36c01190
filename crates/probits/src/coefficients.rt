// The coefficients of the probits, rounded outward: 31 bits for a span, 2^-30 for a number of either sign.
// Mantissas are written out: a constant's value calls no function.
use fixed::Log;
use span::Span;

// What a building withstands: an overpressure and an impulse, each with the exponent of its part in tenths, and the factor of ln in ten-thousandths.
pub struct Strength {
    pub pressure: Span,
    pub pressure_tenths: u32,
    pub impulse: Span,
    pub impulse_tenths: u32,
    pub factor: u32,
}

// Pr1: 17500 Pa and 290 Pa·s, 8.4 and 9.3, 0.26 (003).
pub static WEAK: Strength = Strength {
    pressure: Span {
        lo: 1146880000,
        hi: 1146880000,
        e: 1008,
    },
    pressure_tenths: 84,
    impulse: Span {
        lo: 1216348160,
        hi: 1216348160,
        e: 1002,
    },
    impulse_tenths: 93,
    factor: 2_600,
};

// Pr2: 40000 Pa and 460 Pa·s, 7.4 and 11.3, 0.22 (003).
pub static STRONG: Strength = Strength {
    pressure: Span {
        lo: 1310720000,
        hi: 1310720000,
        e: 1009,
    },
    pressure_tenths: 74,
    impulse: Span {
        lo: 1929379840,
        hi: 1929379840,
        e: 1002,
    },
    impulse_tenths: 113,
    factor: 2_200,
};

// Pr3: 4.2 and 1.3 (003).
pub const LUNG_PRESSURE: Span = Span {
    lo: 1127428915,
    hi: 1127428916,
    e: 996,
};

pub const LUNG_IMPULSE: Span = Span {
    lo: 1395864371,
    hi: 1395864372,
    e: 994,
};

// P0^(1/2) at 101,300 Pa.
pub const STANDARD_ROOT: Span = Span {
    lo: 1334948855,
    hi: 1334948856,
    e: 1002,
};

// Pr5: 7380 and 1,300,000,000 (003).
pub const THROW_PRESSURE: Span = Span {
    lo: 1934622720,
    hi: 1934622720,
    e: 1006,
};

pub const THROW_IMPULSE: Span = Span {
    lo: 1300000000,
    hi: 1300000000,
    e: 1024,
};

// 5, and the -12.6 of Pr4 (003).
pub const FIVE: Log = Log {
    lo: 5368709120,
    hi: 5368709120,
};

pub const MINUS_TWELVE_SIX: Log = Log {
    lo: -13529146983,
    hi: -13529146982,
};
