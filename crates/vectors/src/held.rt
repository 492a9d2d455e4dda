// The floats that a record of latencies holds.
#[derive(Clone, Copy)]
pub struct Held {
    pub sum_ms: f64,
    pub min_ms: f64,
    pub max_ms: f64,
}

// Three different floats for each record: both zeros, 0.1, 1, -1, the infinities and NaN, each of them once in each place.
pub const HELD: [Held; 8] = [
    Held {
        sum_ms: -0.0,
        min_ms: 0.0,
        max_ms: 1.0,
    },
    Held {
        sum_ms: 0.1,
        min_ms: -0.0,
        max_ms: -1.0,
    },
    Held {
        sum_ms: 1.0,
        min_ms: 0.1,
        max_ms: f64::INFINITY,
    },
    Held {
        sum_ms: -1.0,
        min_ms: 1.0,
        max_ms: f64::NEG_INFINITY,
    },
    Held {
        sum_ms: f64::INFINITY,
        min_ms: -1.0,
        max_ms: f64::NAN,
    },
    Held {
        sum_ms: f64::NEG_INFINITY,
        min_ms: f64::INFINITY,
        max_ms: 0.0,
    },
    Held {
        sum_ms: f64::NAN,
        min_ms: f64::NEG_INFINITY,
        max_ms: -0.0,
    },
    Held {
        sum_ms: 0.0,
        min_ms: f64::NAN,
        max_ms: 0.1,
    },
];
