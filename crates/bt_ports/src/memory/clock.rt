//! A clock whose readings are given.
ghost use Rattle.std.specs.Prelude.{◌≡◌, true};
ghost use Rattle.bt_ports.specs.Clock.{reading_at};
ghost use Rattle.bt_ports.specs.Faults.{one_more};

use crate::outside::Clock;
use crate::parts::Moments;
use std::marker::Model;

/// A clock that gives its readings in order, repeats the last one, and gives 0 where there is none.
#[derive(Drop)]
pub struct MemClock {
    readings: Moments,
    made: u64,
}

impl Model for MemClock {
    ghost use Rattle.bt_ports.specs.Memory.{ClockView};

    ghost Value = { ClockView };

    ghost view = { λ s. record { readings = s.readings.list; made = s.made } };
}

impl MemClock {
    /// A clock with these readings.
    pub fn make(readings: Moments) -> MemClock
        ensures { result ≡ record { readings = readings.list; made = 0 } }
    {
        MemClock { readings, made: 0 }
    }

    /// The readings that it was given.
    pub fn readings(&self) -> &Moments
        ensures { result.now.list ≡ self.now.readings }
    {
        &self.readings
    }

    // The clock from its first reading.
    pub(crate) fn anew(self) -> MemClock
        ensures { result ≡ record self { made = 0 } }
    {
        let mut clock = self;
        clock.made = 0;
        clock
    }
}

impl Clock for MemClock {
    ghost tells = { λ _. true };

    ghost readings = { λ c. c.readings };

    ghost made = { λ c. c.made };

    fn now(&mut self) -> u64
        ensures reads { result ≡ reading_at self.old.readings self.old.made }
        ensures stays { self.new ≡ record self.old { made = one_more self.old.made } }
    {
        let made = self.made;
        self.made = made.saturating_add(1);
        let readings = self.readings.as_slice();
        if readings.is_empty() {
            return 0;
        }
        let last = readings.len() - 1;
        let at = if made < last as u64 {
            made as usize
        } else {
            last
        };
        readings[at]
    }
}
