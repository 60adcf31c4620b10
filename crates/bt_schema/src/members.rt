//! The places of the members of objects.
ghost use Rattle.std.specs.Prelude.{◌≡◌, None, false};
ghost use Rattle.bt_schema.specs.Table as spec;
ghost use Rattle.bt_schema.specs.declared.places.Place.TheVariants as place;

use crate::places::Place;

/// The place of the member `key` of an object at `parent`, and nothing exactly where it is unknown.
/// `newer` says whether the configuration is of version 2.
pub fn member(newer: bool, parent: Place, key: &str) -> Option<Place>
    ensures { result ≡ spec.member newer parent key.now }
{
    match parent {
        Place::Top => top_member(key),
        Place::Pipeline => pipeline_member(newer, key),
        Place::Input => input_member(newer, key),
        Place::Stdin => stdin_member(newer, key),
        Place::FileInput => file_input_member(newer, key),
        Place::Scanner => scanner_member(newer, key),
        Place::LinesScanner => lines_scanner_member(newer, key),
        Place::CsvScanner => csv_scanner_member(key),
        Place::Batched => batched_member(key),
        Place::Policy => policy_member(key),
        Place::Sequence => sequence_member(key),
        Place::ReadUntil => read_until_member(key),
        Place::Output => output_member(key),
        Place::Stdout => stdout_member(key),
        Place::FileOutput => file_output_member(key),
        Place::Broker => broker_member(key),
        Place::Batching => batching_member(key),
        Place::OutputSwitch => output_switch_member(key),
        Place::OutputCase => output_case_member(key),
        Place::Retry => retry_member(key),
        Place::DropOn => drop_on_member(key),
        Place::Processor => processor_member(key),
        Place::SwitchCase => switch_case_member(key),
        Place::Branch => branch_member(key),
        Place::Split => split_member(key),
        Place::Group => group_member(key),
        Place::GroupByValue => group_by_value_member(key),
        Place::Archive => archive_member(key),
        Place::Test => test_member(key),
        Place::Message => message_member(key),
        Place::Conditions => conditions_member(key),
        _ => None,
    }
}

fn top_member(key: &str) -> Option<Place>
    ensures { result ≡ spec.member false place.Top key.now }
{
    match key {
        "buffer" => Some(Place::Refused),
        "http" => Some(Place::Refused),
        "input" => Some(Place::Input),
        "logger" => Some(Place::Refused),
        "metrics" => Some(Place::Refused),
        "output" => Some(Place::Output),
        "pipeline" => Some(Place::Pipeline),
        "shutdown_timeout" => Some(Place::Refused),
        "tests" => Some(Place::Tests),
        "tracer" => Some(Place::Refused),
        "version" => Some(Place::Version),
        _ => resources_member(key),
    }
}

fn pipeline_member(newer: bool, key: &str) -> Option<Place>
    ensures { result ≡ spec.member newer place.Pipeline key.now }
{
    match key {
        "processors" => Some(Place::Processors),
        "threads" => Some(Place::Threads),
        "window" if newer => Some(Place::Window),
        _ => None,
    }
}

fn input_member(newer: bool, key: &str) -> Option<Place>
    ensures { result ≡ spec.member newer place.Input key.now }
{
    match key {
        "batched" => Some(Place::Batched),
        "file" => Some(Place::FileInput),
        "label" => Some(Place::Label),
        "processors" => Some(Place::Refused),
        "read_until" if newer => Some(Place::ReadUntil),
        "sequence" if newer => Some(Place::Sequence),
        "stdin" => Some(Place::Stdin),
        _ => None,
    }
}

fn stdin_member(newer: bool, key: &str) -> Option<Place>
    ensures { result ≡ spec.member newer place.Stdin key.now }
{
    match key {
        "auto_replay_nacks" => Some(Place::Never),
        "codec" if newer => Some(Place::Codec),
        "scanner" => Some(Place::Scanner),
        _ => None,
    }
}

fn file_input_member(newer: bool, key: &str) -> Option<Place>
    ensures { result ≡ spec.member newer place.FileInput key.now }
{
    match key {
        "auto_replay_nacks" => Some(Place::Never),
        "codec" if newer => Some(Place::Codec),
        "paths" => Some(Place::Paths),
        "scanner" => Some(Place::Scanner),
        _ => None,
    }
}

fn scanner_member(newer: bool, key: &str) -> Option<Place>
    ensures { result ≡ spec.member newer place.Scanner key.now }
{
    match key {
        "csv" if newer => Some(Place::CsvScanner),
        "lines" => Some(Place::LinesScanner),
        _ => None,
    }
}

fn lines_scanner_member(newer: bool, key: &str) -> Option<Place>
    ensures { result ≡ spec.member newer place.LinesScanner key.now }
{
    match key {
        "custom_delimiter" if newer => Some(Place::LinesDelimiter),
        _ => None,
    }
}

fn csv_scanner_member(key: &str) -> Option<Place>
    ensures { result ≡ spec.member false place.CsvScanner key.now }
{
    match key {
        "custom_delimiter" => Some(Place::CsvDelimiter),
        "parse_header_row" => Some(Place::Flag),
        _ => None,
    }
}

fn batched_member(key: &str) -> Option<Place>
    ensures { result ≡ spec.member false place.Batched key.now }
{
    match key {
        "child" => Some(Place::Input),
        "policy" => Some(Place::Policy),
        _ => None,
    }
}

fn policy_member(key: &str) -> Option<Place>
    ensures { result ≡ spec.member false place.Policy key.now }
{
    match key {
        "byte_size" => Some(Place::ByteSize),
        "check" => Some(Place::OptionalCheck),
        "count" => Some(Place::Count),
        "period" => Some(Place::InputPeriod),
        "processors" => Some(Place::Refused),
        _ => None,
    }
}

fn sequence_member(key: &str) -> Option<Place>
    ensures { result ≡ spec.member false place.Sequence key.now }
{
    match key {
        "inputs" => Some(Place::Inputs),
        _ => None,
    }
}

fn read_until_member(key: &str) -> Option<Place>
    ensures { result ≡ spec.member false place.ReadUntil key.now }
{
    match key {
        "check" => Some(Place::Check),
        "idle_timeout" => Some(Place::Refused),
        "input" => Some(Place::Input),
        "restart_input" => Some(Place::Never),
        _ => None,
    }
}

fn output_member(key: &str) -> Option<Place>
    ensures { result ≡ spec.member false place.Output key.now }
{
    match key {
        "broker" => Some(Place::Broker),
        "drop" => Some(Place::Drop),
        "drop_on" => Some(Place::DropOn),
        "fallback" => Some(Place::Outputs),
        "file" => Some(Place::FileOutput),
        "label" => Some(Place::Label),
        "processors" => Some(Place::Refused),
        "reject" => Some(Place::Interpolated),
        "reject_errored" => Some(Place::Output),
        "retry" => Some(Place::Retry),
        "stdout" => Some(Place::Stdout),
        "switch" => Some(Place::OutputSwitch),
        _ => None,
    }
}

fn stdout_member(key: &str) -> Option<Place>
    ensures { result ≡ spec.member false place.Stdout key.now }
{
    match key {
        "codec" => Some(Place::OutputCodec),
        _ => None,
    }
}

fn file_output_member(key: &str) -> Option<Place>
    ensures { result ≡ spec.member false place.FileOutput key.now }
{
    match key {
        "codec" => Some(Place::OutputCodec),
        "path" => Some(Place::SinkPath),
        _ => None,
    }
}

fn broker_member(key: &str) -> Option<Place>
    ensures { result ≡ spec.member false place.Broker key.now }
{
    match key {
        "batching" => Some(Place::Batching),
        "outputs" => Some(Place::Outputs),
        "pattern" => Some(Place::Pattern),
        _ => None,
    }
}

fn batching_member(key: &str) -> Option<Place>
    ensures { result ≡ spec.member false place.Batching key.now }
{
    match key {
        "byte_size" => Some(Place::ByteSize),
        "check" => Some(Place::OptionalCheck),
        "count" => Some(Place::Count),
        "period" => Some(Place::Period),
        "processors" => Some(Place::Refused),
        _ => None,
    }
}

fn output_switch_member(key: &str) -> Option<Place>
    ensures { result ≡ spec.member false place.OutputSwitch key.now }
{
    match key {
        "cases" => Some(Place::OutputCases),
        "retry_until_success" => Some(Place::Never),
        "strict_mode" => Some(Place::Flag),
        _ => None,
    }
}

fn output_case_member(key: &str) -> Option<Place>
    ensures { result ≡ spec.member false place.OutputCase key.now }
{
    match key {
        "check" => Some(Place::OptionalCheck),
        "continue" => Some(Place::Flag),
        "output" => Some(Place::Output),
        _ => None,
    }
}

fn retry_member(key: &str) -> Option<Place>
    ensures { result ≡ spec.member false place.Retry key.now }
{
    match key {
        "back_pressure" => Some(Place::Refused),
        "backoff" => Some(Place::Refused),
        "error_patterns" => Some(Place::Refused),
        "max_in_flight" => Some(Place::Refused),
        "max_retries" => Some(Place::MaxRetries),
        "output" => Some(Place::Output),
        _ => None,
    }
}

fn drop_on_member(key: &str) -> Option<Place>
    ensures { result ≡ spec.member false place.DropOn key.now }
{
    match key {
        "back_pressure" => Some(Place::Refused),
        "backoff" => Some(Place::Refused),
        "error" => Some(Place::Flag),
        "error_patterns" => Some(Place::Refused),
        "max_in_flight" => Some(Place::Refused),
        "output" => Some(Place::Output),
        _ => None,
    }
}

fn processor_member(key: &str) -> Option<Place>
    ensures { result ≡ spec.member false place.Processor key.now }
{
    match key {
        "archive" => Some(Place::Archive),
        "bloblang" => Some(Place::Mapping),
        "branch" => Some(Place::Branch),
        "catch" => Some(Place::Processors),
        "for_each" => Some(Place::Processors),
        "group_by" => Some(Place::GroupBy),
        "group_by_value" => Some(Place::GroupByValue),
        "label" => Some(Place::Label),
        "mapping" => Some(Place::Mapping),
        "split" => Some(Place::Split),
        "switch" => Some(Place::Switch),
        "try" => Some(Place::Processors),
        "unarchive" => Some(Place::Archive),
        _ => None,
    }
}

fn switch_case_member(key: &str) -> Option<Place>
    ensures { result ≡ spec.member false place.SwitchCase key.now }
{
    match key {
        "check" => Some(Place::OptionalCheck),
        "fallthrough" => Some(Place::Flag),
        "processors" => Some(Place::Processors),
        _ => None,
    }
}

fn branch_member(key: &str) -> Option<Place>
    ensures { result ≡ spec.member false place.Branch key.now }
{
    match key {
        "processors" => Some(Place::Processors),
        "request_map" => Some(Place::OptionalMapping),
        "result_map" => Some(Place::OptionalMapping),
        _ => None,
    }
}

fn split_member(key: &str) -> Option<Place>
    ensures { result ≡ spec.member false place.Split key.now }
{
    match key {
        "byte_size" => Some(Place::Refused),
        "size" => Some(Place::Size),
        _ => None,
    }
}

fn group_member(key: &str) -> Option<Place>
    ensures { result ≡ spec.member false place.Group key.now }
{
    match key {
        "check" => Some(Place::Check),
        "processors" => Some(Place::Processors),
        _ => None,
    }
}

fn group_by_value_member(key: &str) -> Option<Place>
    ensures { result ≡ spec.member false place.GroupByValue key.now }
{
    match key {
        "value" => Some(Place::Interpolated),
        _ => None,
    }
}

fn archive_member(key: &str) -> Option<Place>
    ensures { result ≡ spec.member false place.Archive key.now }
{
    match key {
        "format" => Some(Place::Format),
        _ => None,
    }
}

fn test_member(key: &str) -> Option<Place>
    ensures { result ≡ spec.member false place.Test key.now }
{
    match key {
        "input_batch" => Some(Place::Messages),
        "name" => Some(Place::Label),
        "output_batches" => Some(Place::ExpectedBatches),
        "target_processors" => Some(Place::Target),
        _ => None,
    }
}

fn message_member(key: &str) -> Option<Place>
    ensures { result ≡ spec.member false place.Message key.now }
{
    match key {
        "content" => Some(Place::Label),
        "json_content" => Some(Place::AnyValue),
        "metadata" => Some(Place::AnyObject),
        _ => None,
    }
}

fn conditions_member(key: &str) -> Option<Place>
    ensures { result ≡ spec.member false place.Conditions key.now }
{
    match key {
        "bloblang" => Some(Place::Check),
        "content_equals" => Some(Place::Label),
        "content_matches" => Some(Place::Regex),
        "json_contains" => Some(Place::AnyValue),
        "json_equals" => Some(Place::AnyValue),
        "metadata_equals" => Some(Place::AnyObject),
        _ => None,
    }
}

fn resources_member(key: &str) -> Option<Place>
    ensures { result ≡ spec.or_resources key.now None }
{
    if ends_in_resources(key.as_bytes()) {
        Some(Place::Refused)
    } else {
        None
    }
}

fn ends_in_resources(key: &[u8]) -> bool
    ensures { result ≡ spec.ends_in_resources key.now }
{
    key.len() >= 10 && &key[key.len() - 10..] == b"_resources".as_slice()
}
