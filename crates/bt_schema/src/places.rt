//! The places of a configuration.

/// A place of the configuration: what stands there has a form and, in an object, fields of its own.
#[derive(Clone, Copy, Debug, PartialEq, Eq)]
pub enum Place {
    /// The whole configuration.
    Top,
    /// `version`: 1 or 2.
    Version,
    /// `pipeline`.
    Pipeline,
    /// `threads` of `pipeline`.
    Threads,
    /// `window` of `pipeline`.
    Window,
    /// An input.
    Input,
    /// The fields of the input `stdin`.
    Stdin,
    /// The fields of the input `file`.
    FileInput,
    /// `paths` of the input `file`.
    Paths,
    /// One of these paths.
    Path,
    /// `codec` of an input.
    Codec,
    /// `scanner` of an input.
    Scanner,
    /// The fields of the scanner `lines`.
    LinesScanner,
    /// `custom_delimiter` of the scanner `lines`.
    LinesDelimiter,
    /// The fields of the scanner `csv`.
    CsvScanner,
    /// `custom_delimiter` of the scanner `csv`.
    CsvDelimiter,
    /// The fields of the input `batched`.
    Batched,
    /// `policy` of the input `batched`.
    Policy,
    /// The fields of the input `sequence`.
    Sequence,
    /// `inputs` of the input `sequence`.
    Inputs,
    /// The fields of the input `read_until`.
    ReadUntil,
    /// `count` of a policy.
    Count,
    /// `byte_size` of a policy.
    ByteSize,
    /// `period` of the batching of the output `broker`.
    Period,
    /// `period` of the policy of the input `batched`.
    InputPeriod,
    /// An output.
    Output,
    /// `outputs` of the output `broker`, and the output `fallback`.
    Outputs,
    /// The fields of the output `stdout`.
    Stdout,
    /// The fields of the output `file`.
    FileOutput,
    /// `codec` of an output.
    OutputCodec,
    /// `path` of the output `file`.
    SinkPath,
    /// The fields of the output `broker`.
    Broker,
    /// `batching` of the output `broker`.
    Batching,
    /// `pattern` of the output `broker`.
    Pattern,
    /// The fields of the output `switch`.
    OutputSwitch,
    /// `cases` of the output `switch`.
    OutputCases,
    /// One of these cases.
    OutputCase,
    /// The output `drop`, which has no field.
    Drop,
    /// The fields of the output `retry`.
    Retry,
    /// `max_retries` of the output `retry`.
    MaxRetries,
    /// The fields of the output `drop_on`.
    DropOn,
    /// A list of processors.
    Processors,
    /// A processor.
    Processor,
    /// The cases of the processor `switch`.
    Switch,
    /// One of these cases.
    SwitchCase,
    /// The fields of the processor `branch`.
    Branch,
    /// The fields of the processor `split`.
    Split,
    /// `size` of the processor `split`.
    Size,
    /// The groups of the processor `group_by`.
    GroupBy,
    /// One of these groups.
    Group,
    /// The fields of the processor `group_by_value`.
    GroupByValue,
    /// The fields of the processors `archive` and `unarchive`.
    Archive,
    /// `format` of the processors `archive` and `unarchive`.
    Format,
    /// `tests`.
    Tests,
    /// A test.
    Test,
    /// `input_batch` of a test.
    Messages,
    /// One of these messages.
    Message,
    /// `output_batches` of a test.
    ExpectedBatches,
    /// One of these batches.
    ExpectedBatch,
    /// The conditions on a message that a test expects.
    Conditions,
    /// `target_processors` of a test.
    Target,
    /// A mapping.
    Mapping,
    /// A mapping, or the empty text.
    OptionalMapping,
    /// A check.
    Check,
    /// A check, or the empty text.
    OptionalCheck,
    /// An interpolated text.
    Interpolated,
    /// Any text: a label, a name, a content.
    Label,
    /// The text of a pattern.
    Regex,
    /// A boolean.
    Flag,
    /// A boolean that has to be false.
    Never,
    /// Any value.
    AnyValue,
    /// Any object.
    AnyObject,
    /// What is known and refused.
    Refused,
}
