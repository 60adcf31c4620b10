//! An answerer that keeps its calls.
ghost use Rattle.std.specs.Prelude.{◌≡◌, ◌≤◌, [], ◌∷◌, ◌++◌, true, if◌then◌else◌, IsTrue, OnErr, OnOk, is_err};
ghost use Rattle.bt_ports.specs.Faults.{Rose, one_more};
ghost use Rattle.bt_ports.specs.Memory.{is_named};

use crate::NoMemory;
use crate::blob::Blob;
use crate::memory::names;
use crate::outside::Answerer;
use crate::parts::{AnswerCall, AnswerCalls, AnswerFailed, Calls, Verdict};
use crate::sequence::Sequence;
use std::alloc::Global;
use std::marker::Model;

/// An answerer that keeps the calls at it.
///
/// Where it finds no memory it counts a fault, and tells nothing from then on.
#[derive(Drop)]
pub struct MemAnswerer {
    alloc: Global,
    failing: Calls,
    made: u64,
    faults: u64,
    lost: bool,
    place: u64,
    answers: AnswerCalls,
}

impl Model for MemAnswerer {
    ghost use Rattle.std.specs.Prelude.{not};
    ghost use Rattle.bt_ports.specs.Memory.{AnswererView};

    ghost Value = { AnswererView };

    ghost view = { λ s. record { faults = s.faults; place = s.place; tells = not s.lost; answers = s.answers.list; failing = s.failing.list; made = s.made } };
}

impl MemAnswerer {
    /// An answerer whose calls of the numbers in `failing` fail.
    pub fn make(alloc: Global, failing: Calls) -> MemAnswerer
        ensures { result ≡ record { faults = 0; place = 0; tells = true; answers = []; failing = failing.list; made = 0 } }
    {
        MemAnswerer {
            alloc,
            failing,
            made: 0,
            faults: 0,
            lost: false,
            place: 0,
            answers: Sequence::new(alloc),
        }
    }

    /// The calls that were made.
    pub fn answers(&self) -> &AnswerCalls
        ensures { result.now.list ≡ self.now.answers }
    {
        &self.answers
    }

    // The answerer at a place of the list of calls.
    pub(crate) fn placed(self, place: u64) -> MemAnswerer
        ensures { result ≡ record self { place = place } }
    {
        let mut placed = self;
        placed.place = place;
        placed
    }
}

impl Answerer for MemAnswerer {
    ghost faults = { λ s. s.faults };

    ghost place = { λ s. s.place };

    ghost tells = { λ s. s.tells };

    ghost calls = { λ s. s.answers };

    fn answer(
        &mut self,
        number: u64,
        item: u64,
        verdict: &Verdict,
        why: &[u8],
    ) -> Result<(), AnswerFailed>
        ensures counted { self.old.faults ≤ self.new.faults }
        ensures failed { OnErr result (Rose self.old.faults self.new.faults) }
        ensures told { IsTrue self.new.tells → IsTrue self.old.tells }
        ensures adds { IsTrue self.new.tells → self.new.answers ≡ self.old.answers ++ record { number = number; item = item; verdict = verdict.now; why = why.now; failed = is_err result } ∷ [] }

        // A call fails exactly where its number is named, and where memory is wanting: then the answerer tells no more.
        ensures fails { IsTrue self.new.tells → is_err result ≡ is_named self.old.failing self.new.made }
        ensures loses { OnOk result (self.new.tells ≡ self.old.tells) }
        ensures stays { self.new ≡ record self.old { faults = (if is_err result then one_more self.old.faults else self.old.faults); tells = self.new.tells; answers = self.new.answers; made = one_more self.old.made } }
    {
        self.made = self.made.saturating_add(1);
        let failed = names(&self.failing, self.made);
        match Blob::make(self.alloc, why) {
            Ok(why) => {
                let call = AnswerCall {
                    number,
                    item,
                    verdict: *verdict,
                    why,
                    failed,
                };
                match self.answers.push(call) {
                    Ok(()) => {
                        if !failed {
                            return Ok(());
                        }
                    }
                    Err(_) => self.lost = true,
                }
            }
            Err(NoMemory) => self.lost = true,
        }
        self.faults = self.faults.saturating_add(1);
        Err(AnswerFailed)
    }
}
