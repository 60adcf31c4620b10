//! Taking a transaction, and refusing one for want of memory.
ghost use Rattle.std.specs.Prelude.{◌≡◌, ◌+◌, ◌<◌, ◌^◌, length, Some, None, IfOk, IfErr, List};
ghost use Rattle.bt_floor.specs.Calls.{Takes, Ends};
ghost use Rattle.bt_ledger.specs.Calls.{IsOut};
ghost use Rattle.bt_ledger.specs.Ledger.{items_in, number_in, slot_at, with_slot, opened};
ghost use Rattle.bt_ledger.specs.declared.slot.Slot.TheVariants.{Free, Out};
ghost use Rattle.bt_ports.specs.Intake.{stop_of};
ghost use Rattle.bt_ports.specs.declared.parts.AnswerCall.{AnswerCall};
ghost use Rattle.bt_sound.specs.Answers.{RefusedAll, RefusedOne};
ghost use Rattle.bt_sound.specs.Counting.{capped};
ghost use Rattle.bt_sound.specs.Course.{ending_of};
ghost use Rattle.bt_sound.specs.Turns.{RefusedInTurn};

use crate::floor::Floor;
use crate::moves::count_answer;
use bt_demand::derive::Derive;
use bt_ledger::ledger::Ledger;
use bt_ports::outside::{Answerer, Clock, Intake, Sink};
use bt_ports::parts::{Cause, Items, Next, Txn, Verdict};
use bt_sound::counts::{Counts, Ending};

/// A transaction that was taken, and the slot that it has from now on.
#[derive(Drop)]
pub struct Taken {
    pub slot: u32,
    pub txn: Txn,
}

impl<I: Intake, K: Sink, A: Answerer, C: Clock, D: Derive> Floor<I, K, A, C, D> {
    /// Takes the intake's next batch as the next transaction, with the clock's next reading as its moment; or finds how
    /// the run ends. Only the intake may take memory here.
    ///
    /// # Errors
    ///
    /// The ending, where the intake gave an answer other than a batch.
    pub fn take(&mut self) -> Result<Taken, Ending>
        requires goes { self.old.outside.ending ≡ None }
        requires room { opened self.old.ledger < length self.old.ledger.slots }
        ensures ok { IfOk result (λ t. Takes ⟦<I as Intake>⟧ ⟦<C as Clock>⟧ self.old self.new t.slot t.txn) }
        ensures err { IfErr result (λ e. Ends ⟦<I as Intake>⟧ ⟦<C as Clock>⟧ self.old self.new e) }
    {
        match batch_of(self.intake.next()) {
            Ok(items) => {
                let moment = self.clock.now();
                self.taken += 1;
                let number = self.taken;
                let slot = admit(&mut self.ledger, number, moment, items.len() as u64);
                Ok(Taken {
                    slot,
                    txn: Txn {
                        number,
                        moment,
                        items,
                    },
                })
            }
            Err(ending) => {
                self.ending = Some(ending);
                Err(ending)
            }
        }
    }

    /// Refuses each item of a transaction that is out, in order, for want of memory, and frees its slot.
    pub fn refuse(&mut self, slot: u32, items: u64)
        requires within { slot < length self.old.ledger.slots }
        requires out { IsOut (slot_at self.old.ledger slot) }
        requires items { items ≡ items_in (slot_at self.old.ledger slot) }
        ensures ledger { self.new.ledger ≡ with_slot self.old.ledger slot Free }
        ensures refused { self.new.outside ≡ record self.old.outside { refused_memory = capped (self.old.outside.refused_memory + items) } }
        ensures turn { RefusedInTurn ⟦<A as Answerer>⟧ (number_in (slot_at self.old.ledger slot)) items self.old self.new }
    {
        let number = self.ledger.number(slot);
        refuse_items(&mut self.answerer, &mut self.counts, number, items);
        self.ledger.abandon(slot);
    }
}

/// The batch, or the ending that another answer of an intake is.
fn batch_of(next: Next) -> Result<Items, Ending>
    ensures batch { IfOk result (λ items. next ≡ Next.Batch items) }
    ensures ending { IfErr result (λ ending. ending_of (stop_of next) ≡ Some ending) }
{
    match next {
        Next::Batch(items) => Ok(items),
        Next::End => Err(Ending::Ended),
        Next::Failed => Err(Ending::ReadFault),
        Next::LongLine(line) => Err(Ending::LongLine(line)),
        Next::Bound => Err(Ending::Bound),
        Next::NoMemory => Err(Ending::NoMemory),
    }
}

/// Gives a free slot to a transaction.
fn admit(ledger: &mut Ledger, number: u64, moment: u64, items: u64) -> u32
    requires { opened ledger.old < length ledger.old.slots }
    ensures within { result < length ledger.old.slots }
    ensures free { slot_at ledger.old result ≡ Free }
    ensures ledger { ledger.new ≡ with_slot ledger.old result (Out number moment items) }
{
    match ledger.admit(number, moment, items) {
        Some(slot) => slot,
        None => unreachable!(),
    }
}

fn refuse_item<A: Answerer>(answerer: &mut A, counts: &mut Counts, number: u64, item: u64)
    ensures { (call : AnswerCall) × RefusedOne ⟦<A as Answerer>⟧ answerer.old answerer.new counts.old counts.new number item call }
{
    let verdict = Verdict::Refused(Cause::NoMemory);
    let failed = answerer.answer(number, item, &verdict, &[]).is_err();
    count_answer(counts, verdict, failed);
}

/// Refuses so many items of a transaction in order, for want of memory.
fn refuse_items<A: Answerer>(answerer: &mut A, counts: &mut Counts, number: u64, items: u64)
    ensures refuses { (added : List AnswerCall) × RefusedAll ⟦<A as Answerer>⟧ answerer.old answerer.new counts.old counts.new number items added }
    ensures small { counts.old.refused_memory < 2 ^ 64 }
{
    let _refused = counts.refused_memory;
    for item in 0..items {
        refuse_item(answerer, counts, number, item);
    }
}
