//! Configurations from JSON text.
ghost use Rattle.std.specs.Prelude.{◌≡◌, ◌≤◌, Some, None, IfOk, IsErrOf, IsSome, IsUtf8, false};
ghost use Rattle.serde_json.specs.Read.{read};
ghost use Rattle.bt_value.specs.Depth.{depth};
ghost use Rattle.bt_value.specs.Plain.{has_bytes};
ghost use Rattle.bt_value.specs.Reading.{reading};

use bt_value::{JsonFault, Val, read_json};
use std::alloc::Global;
use thiserror::Error;

/// A configuration.
#[derive(Drop)]
pub struct Config {
    /// The tree of its text.
    pub doc: Val,
}

/// Why bytes are no configuration.
#[derive(Clone, Copy, Debug, PartialEq, Eq, Error)]
pub enum ConfigFault {
    /// They are no JSON text of RFC 8259, or nest deeper than 127.
    #[error("not JSON")]
    NotJson,
    /// A number in the text's tree is no whole number of 64 bits.
    #[error("number out of profile")]
    OutOfProfile,
    /// Memory ran out.
    #[error("out of memory")]
    NoMemory,
}

/// The configuration that the bytes are as JSON. It nests no deeper than 127.
///
/// `NotJson` is answered where the bytes are no UTF-8 or no JSON text, and `OutOfProfile` where
/// they are, and a number in the text's tree is no whole number of 64 bits.
pub fn read_config(alloc: Global, bytes: &[u8]) -> Result<Config, ConfigFault>
    ensures ok { IfOk result (λ c. IsUtf8 bytes.now × (reading bytes.now ≡ Some c.doc)) }
    ensures nests { IfOk result (λ c. depth c.doc ≤ 127) }
    ensures plain { IfOk result (λ c. has_bytes c.doc ≡ false) }
    ensures not_json { IsErrOf result ConfigFault.NotJson → IsUtf8 bytes.now → read bytes.now ≡ None }
    ensures out_of_profile { IsErrOf result ConfigFault.OutOfProfile
        → IsUtf8 bytes.now × IsSome (read bytes.now) × (reading bytes.now ≡ None) }
{
    match read_json(alloc, bytes) {
        Ok(doc) => Ok(Config { doc }),
        Err(JsonFault::NotJson) => Err(ConfigFault::NotJson),
        Err(JsonFault::OutOfProfile) => Err(ConfigFault::OutOfProfile),
        Err(JsonFault::NoMemory) => Err(ConfigFault::NoMemory),
    }
}
