// Engines with the generator's seed 1.
use engine::ArrivalEngine;
use numbers::Refusal;
use options::DirectionConfig;

// What comes of making an engine of the default settings, altered. A refused one has the default settings and the generator of seed 0.
pub fn creation_of<F: FnOnce(&mut DirectionConfig)>(
    alter: F,
) -> (ArrivalEngine, Result<(), Refusal>)
    requires { F.IsAlwaysCallable alter }
{
    let mut settings = DirectionConfig::default();
    alter(&mut settings);
    ArrivalEngine::new(settings, 1)
}

// The engine of the default settings, altered.
pub fn engine_of<F: FnOnce(&mut DirectionConfig)>(alter: F) -> ArrivalEngine
    requires { F.IsAlwaysCallable alter }
{
    let (engine, _) = creation_of(alter);
    engine
}

// The engine of the default settings.
pub fn default_engine() -> ArrivalEngine {
    engine_of(|_| ())
}
