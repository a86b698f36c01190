// The coefficients of the wave formulas, rounded outward to 31 bits. Mantissas are written out: a constant's value calls no function.
use fixed::Log;
use span::Span;

// Heterogeneous detonation, pressure: 0.125, 0.137 and 0.023 (003).
pub const AEROSOL_FIRST: Span = Span {
    lo: 1073741824,
    hi: 1073741824,
    e: 991,
};

pub const AEROSOL_SECOND: Span = Span {
    lo: 1176821039,
    hi: 1176821040,
    e: 991,
};

pub const AEROSOL_THIRD: Span = Span {
    lo: 1580547964,
    hi: 1580547965,
    e: 988,
};

// Heterogeneous detonation, impulse: 0.022 (003).
pub const AEROSOL_PUSH: Span = Span {
    lo: 1511828488,
    hi: 1511828489,
    e: 988,
};

// Deflagration, pressure: 0.83 and 0.14 (003).
pub const FALLING_FIRST: Span = Span {
    lo: 1782411427,
    hi: 1782411428,
    e: 993,
};

pub const FALLING_SECOND: Span = Span {
    lo: 1202590842,
    hi: 1202590843,
    e: 991,
};

// Deflagration, impulse: 0.06, 0.01 and 0.0025 (003).
pub const PUSH_FIRST: Span = Span {
    lo: 2061584302,
    hi: 2061584303,
    e: 989,
};

pub const PUSH_SECOND: Span = Span {
    lo: 1374389534,
    hi: 1374389535,
    e: 987,
};

pub const PUSH_THIRD: Span = Span {
    lo: 1374389534,
    hi: 1374389535,
    e: 985,
};

// Deflagration, impulse: 0.4 of 1 - 0.4gw (003).
pub const FOUR_TENTHS: Span = Span {
    lo: 1717986918,
    hi: 1717986919,
    e: 992,
};

// C0, 340 m/s (004).
pub const SOUND: Span = Span {
    lo: 1426063360,
    hi: 1426063360,
    e: 1002,
};

// g = (σ - 1)/σ: 6/7 for gas, σ = 7, and 3/4 for a heterogeneous cloud, σ = 4.
pub const GAS_EXPANSION: Span = Span {
    lo: 1840700269,
    hi: 1840700270,
    e: 993,
};

pub const AEROSOL_EXPANSION: Span = Span {
    lo: 1610612736,
    hi: 1610612736,
    e: 993,
};

// Gas detonation: -1.124 of ln Px and -3.4217 of ln Ix (003).
pub const PRESSURE_START: Log = Log {
    lo: -1206885811,
    hi: -1206885810,
};

pub const IMPULSE_START: Log = Log {
    lo: -3674022400,
    hi: -3674022399,
};

// Front speed of ranges 2, 3 and 4, m/s: the upper ends (003).
pub const FRONT_500: Span = Span {
    lo: 2097152000,
    hi: 2097152000,
    e: 1002,
};

pub const FRONT_300: Span = Span {
    lo: 1258291200,
    hi: 1258291200,
    e: 1002,
};

pub const FRONT_200: Span = Span {
    lo: 1677721600,
    hi: 1677721600,
    e: 1001,
};

// Front speed of ranges 5 and 6: 43 and 26 of M^(1/6) (003).
pub const FACTOR_43: Span = Span {
    lo: 1442840576,
    hi: 1442840576,
    e: 999,
};

pub const FACTOR_26: Span = Span {
    lo: 1744830464,
    hi: 1744830464,
    e: 998,
};
