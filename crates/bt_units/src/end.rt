//! How tests end, and why they aren't run.

use bt_expectations::Failures;
use bt_ports::NoMemory;
use bt_ports::text::Text;
use bt_schema::Lints;
use sqlite_items::Items;

/// How a test ended.
#[derive(Drop)]
pub struct TestEnd {
    /// Its name.
    pub name: Text,
    /// What of it failed; nothing where it passed.
    pub failures: Failures,
}

/// How tests ended, in their order.
pub type TestEnds = Items<TestEnd>;

/// Why the tests of a configuration aren't run.
#[derive(Drop)]
pub enum UnitsFault {
    /// The configuration's lints, or the one lint of a pattern that is refused. There is one at least.
    Lints(Lints),
    /// Memory ran out.
    NoMemory,
}

impl From<NoMemory> for UnitsFault {
    ghost use Rattle.std.specs.Prelude.{◌≡◌};
    ghost use Rattle.bt_units.specs.declared.end.UnitsFault.TheVariants as fault;

    ghost from_gives = { λ _ f. f ≡ fault.NoMemory };

    fn from(_: NoMemory) -> UnitsFault {
        UnitsFault::NoMemory
    }
}
