//! A configuration with its lints.
ghost use Rattle.bt_config_file.specs.Inside.{BytesSay};

use crate::halt::{ConfigHalt, ConfigRefusal};
use bt_config::{Config, ConfigFault, Lints, lint_config, read_config};
use bt_ports::NoMemory;
use std::alloc::Global;

/// A configuration with its lints, in their order.
#[derive(Drop)]
pub struct Linted {
    /// The configuration.
    pub config: Config,
    /// Its lints.
    pub lints: Lints,
}

/// The configuration that the bytes are, with its lints, or why they are none.
pub(crate) fn lint_bytes(alloc: Global, bytes: &[u8]) -> Result<Linted, ConfigHalt>
    ensures { BytesSay result bytes.now }
{
    match read_config(alloc, bytes) {
        Ok(config) => match lint_config(alloc, &config) {
            Ok(lints) => Ok(Linted { config, lints }),
            Err(NoMemory) => Err(ConfigHalt::NoMemory),
        },
        Err(ConfigFault::NotJson) => Err(ConfigHalt::Refused(ConfigRefusal::NotJson)),
        Err(ConfigFault::OutOfProfile) => Err(ConfigHalt::Refused(ConfigRefusal::OutOfProfile)),
        Err(ConfigFault::NoMemory) => Err(ConfigHalt::NoMemory),
    }
}
