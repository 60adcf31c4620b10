//! One read of a source of a list.
ghost use Rattle.std.specs.Prelude.{◌≡◌, ℕ, ◌-◌, ◌<◌, ◌≤◌, length, take, drop, IsTrue};
ghost use Rattle.bt_ports.specs.Source.{ReadFits, ReadFaults, ReadTakes};
ghost use Rattle.bt_intake.specs.Reading.{Reads, ReadsAt};

use bt_ports::outside::Source;
use bt_ports::parts::{Named, Read, Sources};

/// A `Source` without its bounds `Send` and `Sync`, and with the same promises.
///
/// A method of an impl for a type parameter with these bounds can't pass them on, and that of `Intake` calls what
/// stands over this trait.
pub(crate) trait Readable: Drop {
    ghost use Rattle.bt_ports.specs.declared.outside.Source as Source;

    // What it tells as a source.
    ghost shown: { Source.Ghosts Self };

    fn read_more(&mut self, buffer: &mut [u8]) -> Read
        requires { 0 < length buffer.old }
        ensures fits { ReadFits result (length buffer.old) }
        ensures counted { shown.faults self.old ≤ shown.faults self.new }
        ensures failed { ReadFaults result (shown.faults self.old) (shown.faults self.new) }
        ensures placed { shown.place self.new ≡ shown.place self.old }
        ensures told { IsTrue (shown.tells self.new) → IsTrue (shown.tells self.old) }
        ensures same { IsTrue (shown.tells self.new) → shown.bytes self.new ≡ shown.bytes self.old }
        ensures takes { IsTrue (shown.tells self.new) → ReadTakes result (shown.bytes self.old) (shown.taken self.old) (shown.taken self.new) buffer.new };
}

impl<S: Source> Readable for S {
    ghost shown = { ⟦<S as Source>⟧ };

    fn read_more(&mut self, buffer: &mut [u8]) -> Read {
        self.read(buffer)
    }
}

fn read_one<S: Readable>(named: &mut Named<S>, buffer: &mut [u8]) -> Read
    requires { 0 < length buffer.old }
    ensures { Reads S.shown result named.old named.new (length buffer.old) buffer.new }
{
    named.source.read_more(buffer)
}

// One read of the source at place `at`.
fn read_at<S: Readable>(sources: &mut Sources<S>, at: usize, buffer: &mut [u8]) -> Read
    requires here { at < length sources.old.list }
    requires room { 0 < length buffer.old }
    ensures { ReadsAt S.shown result sources.old.list sources.new.list at (length buffer.old) buffer.new }
{
    match sources.get_mut(at) {
        Some(named) => read_one(named, buffer),
        None => Read::End,
    }
}

// One read of the source at place `at` into the bytes of the buffer behind the first `from`.
fn read_into<S: Readable>(
    sources: &mut Sources<S>,
    at: usize,
    buffer: &mut [u8],
    from: usize,
) -> Read
    requires here { at < length sources.old.list }
    requires room { from < length buffer.old }
    ensures reads { ReadsAt S.shown result sources.old.list sources.new.list at (length buffer.old - from) (drop from buffer.new) }
    ensures kept { take from buffer.new ≡ take from buffer.old }
{
    let (_, tail) = buffer.split_at_mut(from);
    read_at(sources, at, tail)
}

/// One read of the source at place `at` into the bytes of the buffer behind the first `from`.
pub(crate) fn read_behind<S: Readable>(
    sources: &mut Sources<S>,
    at: usize,
    buffer: &mut Vec<u8>,
    from: usize,
) -> Read
    requires here { at < length sources.old.list }
    requires room { from < length buffer.old.items }
    ensures reads { ReadsAt S.shown result sources.old.list sources.new.list at (length buffer.old.items - from) (drop from buffer.new.items) }
    ensures kept { take from buffer.new.items ≡ take from buffer.old.items }
    ensures len { length buffer.new.items ≡ length buffer.old.items }
{
    read_into(sources, at, buffer.as_mut_slice(), from)
}
