//! What an admission answers.
ghost use Rattle.std.specs.Prelude.{◌≡◌};
ghost use Rattle.bt_duties.specs.Calls.{answer_to};

use bt_ports::parts::Txn;
use bt_sound::counts::Ending;

/// What an admission answers: a transaction to deliver, that no slot is free while a duty is out, or how the run ended.
#[derive(Drop)]
pub enum Admit {
    Job(Txn),
    Ended,
    Full,
    ReadFault,
    /// The line of this number, from 1, is longer than lines may be.
    LongLine(u64),
    Bound,
    NoMemory,
}

/// An admission's answer for an ending.
pub(crate) fn answer_of(ending: Ending) -> Admit
    ensures { result ≡ answer_to ending }
{
    match ending {
        Ending::Ended => Admit::Ended,
        Ending::ReadFault => Admit::ReadFault,
        Ending::LongLine(line) => Admit::LongLine(line),
        Ending::Bound => Admit::Bound,
        Ending::NoMemory => Admit::NoMemory,
    }
}
