// The lists of a direction: entries that are not counted may be anything.
// Not one function of list, count and test, since its clause would have to speak of the closure, and each body is two lines.
ghost use Rattle.std.specs.Prelude.{◌≡◌};
ghost use Rattle.settings.specs.Judgement.{is_window, is_kill, is_list};

use crate::setting::is_window;
use numbers::MAX_ENTRIES;
use options::DirectionConfig;

pub fn are_blackouts(cfg: &DirectionConfig) -> bool
    ensures { result ≡ is_list is_window cfg.now.blackouts cfg.now.blackout_count }
{
    let count = cfg.blackout_count;
    count <= MAX_ENTRIES && cfg.blackouts[..count].iter().all(|w| is_window(*w))
}

pub fn are_tcp_kills(cfg: &DirectionConfig) -> bool
    ensures { result ≡ is_list is_kill cfg.now.tcp_kills cfg.now.tcp_kill_count }
{
    let count = cfg.tcp_kill_count;
    count <= MAX_ENTRIES && cfg.tcp_kills[..count].iter().all(|k| is_window(k.window))
}
