// Sixteen floats: both zeros, the smallest, 0.1 and 1 of either sign, 2^53 and its neighbours, the largest, infinities, NaN.
pub const FLOATS: [f64; 16] = [
    0.0,
    -0.0,
    5e-324,
    -5e-324,
    0.1,
    -0.1,
    1.0,
    -1.0,
    9007199254740991.0,
    9007199254740992.0,
    9007199254740994.0,
    1.7976931348623157e308,
    -1.7976931348623157e308,
    f64::INFINITY,
    f64::NEG_INFINITY,
    f64::NAN,
];
