// The settings of the devices.
use numbers::MAX_ENTRIES;
use options::{DirectionConfig, KillStyle, TcpKill, Window};

pub fn delay(delay_ms: f64) -> DirectionConfig {
    DirectionConfig {
        delay_ms,
        ..DirectionConfig::default()
    }
}

// A loss and a delay of NaN, which 29 refuses.
pub fn wrong() -> DirectionConfig {
    DirectionConfig {
        loss: f64::NAN,
        ..delay(f64::NAN)
    }
}

// Every packet is duplicated.
pub fn duplicates() -> DirectionConfig {
    DirectionConfig {
        duplicate_p: 1.0,
        ..DirectionConfig::default()
    }
}

// From 0 to 5 every arrival is dropped.
pub fn blackout() -> DirectionConfig {
    let window = Window {
        start_ms: 0,
        end_ms: 5,
    };
    DirectionConfig {
        blackouts: [window; MAX_ENTRIES],
        blackout_count: 1,
        ..DirectionConfig::default()
    }
}

// From 20 to 25 every arrival is a reset.
pub fn kill() -> DirectionConfig {
    let kill = TcpKill {
        window: Window {
            start_ms: 20,
            end_ms: 25,
        },
        style: KillStyle::Rst,
    };
    DirectionConfig {
        tcp_kills: [kill; MAX_ENTRIES],
        tcp_kill_count: 1,
        ..DirectionConfig::default()
    }
}

// 8,000 bits a second: one byte is one millisecond.
pub fn rate() -> DirectionConfig {
    DirectionConfig {
        rate_bps: Some(8000),
        ..DirectionConfig::default()
    }
}
