//! Why texts aren't made ready.
ghost use Rattle.std.specs.Prelude.{◌≡◌, IfOk};
ghost use Rattle.bt_making.specs.Made as spec;

use bt_ports::NoMemory;
use bt_ports::text::Text;
use bt_schema::{Lint, LintKind};
use std::alloc::Global;

/// Why a text isn't made ready.
#[derive(Drop)]
pub enum Refusal {
    /// It isn't read, or has a pattern that is refused.
    Lint(Lint),
    /// Memory ran out.
    NoMemory,
}

impl From<NoMemory> for Refusal {
    ghost use Rattle.bt_making.specs.declared.refusal.Refusal.TheVariants as refusal;
    ghost use Rattle.std.specs.Prelude.{◌≡◌};

    ghost from_gives = { λ _ r. r ≡ refusal.NoMemory };

    fn from(_: NoMemory) -> Refusal {
        Refusal::NoMemory
    }
}

// The lint that these words are at a place of the configuration.
pub(crate) fn lint(alloc: Global, at: &str, words: Text) -> Result<Lint, NoMemory>
    ensures { IfOk result (λ l. l ≡ spec.lint at.now words) }
{
    let pointer = Text::make(alloc, at)?;
    Ok(Lint {
        pointer,
        kind: LintKind::Fault(words),
    })
}
