//! The clock of a run.
ghost use Rattle.std.specs.Prelude.{[], false};

use bt_ports::outside::Clock;
use std::time::{SystemTime, UNIX_EPOCH};

/// The wall clock in milliseconds since 1970, which tells nothing of its readings.
///
/// Where it can't be read, it repeats its last reading.
#[derive(Drop)]
pub struct RealClock {
    rt: HostRuntime,
    last: u64,
}

impl RealClock {
    /// The clock of this runtime.
    pub fn make(rt: HostRuntime) -> RealClock {
        RealClock { rt, last: 0 }
    }
}

// The milliseconds since 1970, where the clock can be read.
fn millis(rt: &HostRuntime) -> Option<u64> {
    let now = SystemTime::now(rt).ok()?;
    let since = now.duration_since(UNIX_EPOCH).ok()?;
    u64::try_from(since.as_millis()).ok()
}

impl Clock for RealClock {
    ghost tells = { λ _. false };

    ghost readings = { λ _. [] };

    ghost made = { λ _. 0 };

    fn now(&mut self) -> u64 {
        if let Some(now) = millis(&self.rt) {
            self.last = now;
        }
        self.last
    }
}
