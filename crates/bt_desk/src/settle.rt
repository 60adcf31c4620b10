//! Items are put to their sink and answered, one after another.
ghost use Rattle.std.specs.Prelude.{◌≡◌, ℕ, ◌+◌, ◌^◌, ◌<◌, ◌≤◌, List, [], ◌∷◌, length};
ghost use Rattle.bt_desk.specs.History.{Numbered, Settled};
ghost use Rattle.bt_desk.specs.Settles.{Puts, Answers, counted_with, one_item, IsSettled, SettlingInFirst};

use crate::report::Report;
use bt_ports::outside::{Answerer, Sink};
use bt_ports::parts::{Cause, Item, Sinks, Verdict};

/// What became of an item: whether its record was accepted, and whether its answer failed.
#[derive(Clone, Copy)]
struct ItemResult {
    accepted: bool,
    answer_failed: bool,
}

/// Puts the item as its one part, and answers it: an acknowledgement where the record was accepted,
/// the sink's fault where it was refused. An answer that fails isn't repeated.
fn settle_item<K: Sink, A: Answerer>(
    sink: &mut K,
    answerer: &mut A,
    number: u64,
    part: u32,
    item: &Item,
) -> ItemResult
    ensures puts { Puts ⟦<K as Sink>⟧ sink.old sink.new (one_item number part item.now result.accepted result.answer_failed ∷ []) }
    ensures answers { Answers ⟦<A as Answerer>⟧ answerer.old answerer.new (one_item number part item.now result.accepted result.answer_failed ∷ []) }
{
    let put = sink.put(number, part, 0, 0, item.bytes.as_slice());
    let accepted = put.is_ok();
    let verdict = if accepted {
        Verdict::Ack
    } else {
        Verdict::Refused(Cause::SinkFault { leaf: 0, part })
    };
    let answer_failed = answerer
        .answer(number, u64::from(part), &verdict, b"")
        .is_err();
    ItemResult {
        accepted,
        answer_failed,
    }
}

/// Counts what became of an item.
fn count_item(report: &mut Report, outcome: ItemResult)
    requires acked { report.old.acked < 2 ^ 63 }
    requires refused { report.old.refused < 2 ^ 63 }
    requires answer_faults { report.old.answer_faults < 2 ^ 63 }
    ensures counted { (p : Numbered Settled) → p.value.accepted ≡ outcome.accepted → p.value.answer_failed ≡ outcome.answer_failed → report.new ≡ counted_with report.old (p ∷ []) }
    ensures acked { report.new.acked ≤ report.old.acked + 1 }
    ensures refused { report.new.refused ≤ report.old.refused + 1 }
    ensures answer_faults { report.new.answer_faults ≤ report.old.answer_faults + 1 }
{
    if outcome.accepted {
        report.acked += 1;
    } else {
        report.refused += 1;
    }
    if outcome.answer_failed {
        report.answer_faults += 1;
    }
}

/// Puts and answers each item of transaction `number`, in order, and counts them.
fn settle_items<K: Sink, A: Answerer>(
    sink: &mut K,
    answerer: &mut A,
    report: &mut Report,
    number: u64,
    items: &[Item],
)
    requires few { length items.now < 2 ^ 32 }
    requires acked { report.old.acked + length items.now < 2 ^ 63 }
    requires refused { report.old.refused + length items.now < 2 ^ 63 }
    requires answer_faults { report.old.answer_faults + length items.now < 2 ^ 63 }
    ensures { IsSettled ⟦<K as Sink>⟧ ⟦<A as Answerer>⟧ sink.old sink.new answerer.old answerer.new report.old report.new number items.now }
{
    let mut part = 0u32;
    for item in items {
        let outcome = settle_item(sink, answerer, number, part, item);
        count_item(report, outcome);
        part += 1;
    }
}

/// Puts each item to the one sink of the list, answers it and counts it.
pub(crate) fn settle<K: Sink, A: Answerer>(
    sinks: &mut Sinks<K>,
    answerer: &mut A,
    report: &mut Report,
    number: u64,
    items: &[Item],
)
    requires one_sink { length sinks.old.list ≡ 1 }
    requires few { length items.now < 2 ^ 32 }
    requires acked { report.old.acked + length items.now < 2 ^ 63 }
    requires refused { report.old.refused + length items.now < 2 ^ 63 }
    requires answer_faults { report.old.answer_faults + length items.now < 2 ^ 63 }
    ensures one_sink { length sinks.new.list ≡ 1 }
    ensures settles { ((txn : List Settled) × SettlingInFirst ⟦<K as Sink>⟧ ⟦<A as Answerer>⟧ sinks.old.list sinks.new.list answerer.old answerer.new report.old report.new number items.now txn) }
{
    if let Some(sink) = sinks.get_mut(0) {
        settle_items(sink, answerer, report, number, items);
    }
}
