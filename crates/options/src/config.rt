// The settings of the line and of its two directions.
ghost use Rattle.std.specs.Prelude.{◌≡◌};
ghost use Rattle.options.specs.Config.{default_direction, default_config};

use crate::mode::Mode;
use numbers::MAX_ENTRIES;
use settings::{Entry, Ge, TcpKill, Window};

// What a direction does to its packets; of the two lists only the counted entries are settings. Document 01 has them as arrays of 128 with a count.
// A burst or a period of 0 is one that is not set, as in the source.
#[derive(Clone, Copy)]
pub struct DirectionConfig {
    pub loss: f64,
    pub ge: Option<Ge>,
    pub delay_ms: f64,
    pub jitter_ms: f64,
    pub reorder_p: f64,
    pub reorder_delay_ms: f64,
    pub duplicate_p: f64,
    pub rate_bps: Option<u64>,
    pub rate_burst_bytes: u64,
    pub mtu: Option<usize>,
    pub blackouts: [Window; MAX_ENTRIES],
    pub blackout_count: usize,
    pub nat_change_every_ms: u64,
    pub tcp_kills: [TcpKill; MAX_ENTRIES],
    pub tcp_kill_count: usize,
}

// By hand: a derive asks windows and kills for a `Default`, which the source does not give them.
#[tactic(auto, using(numbers::specs::Laws::Literals::zero_is), unfolding(crate::specs::Config::default_direction, crate::specs::Config::direction_with))]
impl Default for DirectionConfig {
    ghost is_default = { λ d. d ≡ default_direction };

    // A direction that changes nothing.
    fn default() -> Self {
        DirectionConfig {
            loss: 0.0,
            ge: None,
            delay_ms: 0.0,
            jitter_ms: 0.0,
            reorder_p: 0.0,
            reorder_delay_ms: 0.0,
            duplicate_p: 0.0,
            rate_bps: None,
            rate_burst_bytes: 0,
            mtu: None,
            blackouts: [Window::empty(); MAX_ENTRIES],
            blackout_count: 0,
            nat_change_every_ms: 0,
            tcp_kills: [TcpKill::empty(); MAX_ENTRIES],
            tcp_kill_count: 0,
        }
    }
}

// The seed where the text names none.
pub const DEFAULT_SEED: u64 = 1;

// The queue's capacity that is told to the host where the text names none.
pub const DEFAULT_QUEUE_CAP: u64 = 100000;

// The settings of an option text.
#[derive(Clone, Copy)]
pub struct Config {
    pub mode: Mode,
    pub seed: u64,
    pub duration_ms: u64,
    pub verbose: bool,
    pub queue_cap: usize,
    pub c2s: DirectionConfig,
    pub s2c: DirectionConfig,
}

// By hand as in the source: the seed and the capacity are not 0.
#[tactic(auto, unfolding(crate::specs::Config::default_config))]
impl Default for Config {
    ghost is_default = { λ c. c ≡ default_config };

    // The settings of a text without arguments.
    fn default() -> Self {
        Config {
            mode: Mode::Udp,
            seed: DEFAULT_SEED,
            duration_ms: 0,
            verbose: false,
            queue_cap: DEFAULT_QUEUE_CAP as usize,
            c2s: DirectionConfig::default(),
            s2c: DirectionConfig::default(),
        }
    }
}
