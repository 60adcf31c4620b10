//! Conditions on a message.
ghost use Rattle.std.specs.Prelude.{◌≡◌};
ghost use Rattle.bt_expectations.specs.Conditions as spec;

use bt_patterns::Pattern;
use bt_ports::text::Text;
use bt_ready::Ready;
use bt_value::{Members, Val};
use sqlite_items::Items;

/// A condition on a message.
#[derive(Clone, Copy, Debug, PartialEq, Eq)]
pub enum Condition {
    /// `bloblang`
    Bloblang,
    /// `content_equals`
    ContentEquals,
    /// `content_matches`
    ContentMatches,
    /// `json_contains`
    JsonContains,
    /// `json_equals`
    JsonEquals,
    /// `metadata_equals`
    MetadataEquals,
}

/// A condition with what is expected, made ready.
#[derive(Drop)]
pub enum Expectation {
    /// The check passes.
    Bloblang(Ready),
    /// The content is this text.
    ContentEquals(Text),
    /// The pattern has a match in the content.
    ContentMatches(Pattern),
    /// The content is JSON that has this within.
    JsonContains(Val),
    /// The content is JSON that equals this.
    JsonEquals(Val),
    /// The metadata has these members.
    MetadataEquals(Members),
}

/// What is expected of a message, in byte order of the conditions' names.
pub type Expectations = Items<Expectation>;

/// What is expected of the messages of a batch, in their order.
pub type ExpectedBatch = Items<Expectations>;

/// What is expected of batches, in their order.
pub type ExpectedBatches = Items<ExpectedBatch>;

/// The name of a condition.
pub fn name_of(condition: Condition) -> &'static str
    ensures { result.now ≡ spec.name_of condition }
{
    match condition {
        Condition::Bloblang => "bloblang",
        Condition::ContentEquals => "content_equals",
        Condition::ContentMatches => "content_matches",
        Condition::JsonContains => "json_contains",
        Condition::JsonEquals => "json_equals",
        Condition::MetadataEquals => "metadata_equals",
    }
}

/// Which condition it is.
pub(crate) fn condition_of(expectation: &Expectation) -> Condition
    ensures { result ≡ spec.condition_of expectation.now }
{
    match expectation {
        Expectation::Bloblang(_) => Condition::Bloblang,
        Expectation::ContentEquals(_) => Condition::ContentEquals,
        Expectation::ContentMatches(_) => Condition::ContentMatches,
        Expectation::JsonContains(_) => Condition::JsonContains,
        Expectation::JsonEquals(_) => Condition::JsonEquals,
        Expectation::MetadataEquals(_) => Condition::MetadataEquals,
    }
}
