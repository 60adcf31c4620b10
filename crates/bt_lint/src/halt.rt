//! Why a `lint` came to no end.
use bt_config_file::ConfigHalt;

/// What kept a `lint` from its end.
#[derive(Clone, Copy, Debug, PartialEq, Eq)]
pub enum Halt {
    /// Nothing was printed: there is no configuration, or memory was wanting.
    Unprinted(ConfigHalt),
    /// A line couldn't be printed whole.
    PrintFailed,
}
