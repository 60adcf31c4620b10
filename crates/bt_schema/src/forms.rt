//! What each place of a configuration needs.
ghost use Rattle.std.specs.Prelude.{◌≡◌, map};
ghost use Rattle.bt_schema.specs.Table as spec;

use crate::places::Place;

/// A language in which a text of the configuration is written.
#[derive(Clone, Copy, Debug, PartialEq, Eq)]
pub enum Language {
    /// A mapping.
    Mapping,
    /// A query, of which it is asked whether it is true.
    Check,
    /// A text with queries between `${!` and `}`.
    Interpolated,
}

/// What stands at a place.
#[derive(Clone, Copy)]
pub enum Form {
    /// An object with fields.
    Object,
    /// An object with exactly one member that names a kind, and maybe others.
    Component,
    /// An object with exactly one of some of its fields.
    Choice,
    /// A list of so many elements.
    List { least: usize, most: Option<usize> },
    /// A number within these.
    Number { least: i64, most: i64 },
    /// A boolean.
    Flag,
    /// A boolean; true is out of the profile.
    Never,
    /// A text.
    Text,
    /// A text that isn't empty.
    FilledText,
    /// The path of a file to be read; one with `*`, `?` or `[` is out of the profile.
    Path,
    /// `lines`, or `delim:` and 1 to 16 bytes.
    Codec,
    /// The same in version 2, and in version 1 `lines` alone.
    OutputCodec,
    /// 1 to 16 bytes.
    LinesDelimiter,
    /// One ASCII byte that is no quotation mark, carriage return or line feed.
    CsvDelimiter,
    /// A period of at most a day; at an input, one that is on is out of the profile.
    Period { input: bool },
    /// `fan_out_fail_fast`; another text is out of the profile.
    Pattern,
    /// `lines` or `json_array`.
    Format,
    /// The pointer of a list of processors.
    Target,
    /// A text in a language, or if it is optional the empty text.
    Query { language: Language, optional: bool },
    /// Any value.
    AnyValue,
    /// Any object.
    AnyObject,
    /// Nothing: whatever stands here is out of the profile.
    Refused,
}

/// What stands at the place.
pub fn form_of(place: Place) -> Form
    ensures { result ≡ spec.form_of place }
{
    match place {
        Place::Top
        | Place::Pipeline
        | Place::Stdin
        | Place::FileInput
        | Place::LinesScanner
        | Place::CsvScanner
        | Place::Batched
        | Place::Policy
        | Place::Sequence
        | Place::ReadUntil
        | Place::Stdout
        | Place::FileOutput
        | Place::Broker
        | Place::Batching
        | Place::OutputSwitch
        | Place::OutputCase
        | Place::Drop
        | Place::Retry
        | Place::DropOn
        | Place::SwitchCase
        | Place::Branch
        | Place::Split
        | Place::Group
        | Place::GroupByValue
        | Place::Archive
        | Place::Test
        | Place::Conditions => Form::Object,
        Place::Version => Form::Number { least: 1, most: 2 },
        Place::Threads => Form::Number { least: 1, most: 64 },
        Place::Window | Place::Size => Form::Number {
            least: 1,
            most: 16_384,
        },
        Place::Input | Place::Scanner | Place::Output | Place::Processor => Form::Component,
        Place::Paths => Form::List {
            least: 1,
            most: Some(64),
        },
        Place::Path => Form::Path,
        Place::Codec => Form::Codec,
        Place::LinesDelimiter => Form::LinesDelimiter,
        Place::CsvDelimiter => Form::CsvDelimiter,
        Place::Inputs | Place::Outputs | Place::OutputCases | Place::GroupBy => Form::List {
            least: 1,
            most: None,
        },
        Place::Count => Form::Number {
            least: 0,
            most: 16_384,
        },
        Place::ByteSize => Form::Number {
            least: 0,
            most: 1_073_741_824,
        },
        Place::Period => Form::Period { input: false },
        Place::InputPeriod => Form::Period { input: true },
        Place::OutputCodec => Form::OutputCodec,
        Place::SinkPath => Form::FilledText,
        Place::Pattern => Form::Pattern,
        Place::MaxRetries => Form::Number { least: 1, most: 8 },
        Place::Processors
        | Place::Switch
        | Place::Tests
        | Place::Messages
        | Place::ExpectedBatches
        | Place::ExpectedBatch => Form::List {
            least: 0,
            most: None,
        },
        Place::Format => Form::Format,
        Place::Message => Form::Choice,
        Place::Target => Form::Target,
        Place::Mapping => Form::Query {
            language: Language::Mapping,
            optional: false,
        },
        Place::OptionalMapping => Form::Query {
            language: Language::Mapping,
            optional: true,
        },
        Place::Check => Form::Query {
            language: Language::Check,
            optional: false,
        },
        Place::OptionalCheck => Form::Query {
            language: Language::Check,
            optional: true,
        },
        Place::Interpolated => Form::Query {
            language: Language::Interpolated,
            optional: false,
        },
        Place::Label | Place::Regex => Form::Text,
        Place::Flag => Form::Flag,
        Place::Never => Form::Never,
        Place::AnyValue => Form::AnyValue,
        Place::AnyObject => Form::AnyObject,
        Place::Refused => Form::Refused,
    }
}

/// The place of a list's elements.
pub fn element(place: Place) -> Place
    ensures { result ≡ spec.element place }
{
    match place {
        Place::Paths => Place::Path,
        Place::Inputs => Place::Input,
        Place::Outputs => Place::Output,
        Place::OutputCases => Place::OutputCase,
        Place::Processors => Place::Processor,
        Place::Switch => Place::SwitchCase,
        Place::GroupBy => Place::Group,
        Place::Tests => Place::Test,
        Place::Messages => Place::Message,
        Place::ExpectedBatches => Place::ExpectedBatch,
        Place::ExpectedBatch => Place::Conditions,
        _ => Place::Refused,
    }
}

/// The fields that an object at the place must have, in byte order.
pub fn required(place: Place) -> &'static [&'static str]
    ensures { map (λ t. t.now) result.now ≡ spec.required place }
{
    match place {
        Place::FileInput => &["paths"],
        Place::Batched => &["child"],
        Place::Sequence => &["inputs"],
        Place::ReadUntil => &["check", "input"],
        Place::FileOutput => &["path"],
        Place::Broker => &["outputs", "pattern"],
        Place::OutputSwitch => &["cases"],
        Place::OutputCase => &["output"],
        Place::Retry => &["max_retries", "output"],
        Place::DropOn => &["error", "output"],
        Place::Group => &["check"],
        Place::GroupByValue => &["value"],
        Place::Archive => &["format"],
        Place::Test => &["input_batch", "name", "output_batches"],
        _ => &[],
    }
}

/// Whether a member of the object at the place names a kind, known or not.
pub fn names_kind(place: Place, key: &str) -> bool
    ensures { result ≡ spec.names_kind place key.now }
{
    match place {
        Place::Input | Place::Output => key != "label" && key != "processors",
        Place::Processor => key != "label",
        Place::Message => key == "content" || key == "json_content",
        _ => true,
    }
}
