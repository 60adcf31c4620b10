//! Why a run didn't begin.
use bt_config::Lints;
use bt_config_file::ConfigRefusal;

/// Why a configuration isn't run.
#[derive(Drop)]
pub enum Unfit {
    /// The file is no configuration.
    Refused(ConfigRefusal),
    /// The configuration has these lints.
    Lints(Lints),
    /// It has no lint, and names an input, a pipeline or an output, which don't run yet.
    NotBuilt,
}

/// What kept a run from beginning.
#[derive(Drop)]
pub enum Halt {
    /// The call of this place in the run's plan failed. The reading of the configuration has place 0, and the openings
    /// stand behind it.
    Failed(u64),
    /// The configuration isn't one that runs.
    Config(Unfit),
    /// Memory was wanting.
    NoMemory,
}
