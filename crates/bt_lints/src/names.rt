//! Lists of names.

ghost use Rattle.std.specs.Prelude.{◌≡◌, ◌++◌, [], ◌∷◌, OnOk};
ghost use Rattle.bt_lints.specs.Names as spec;

use bt_ports::NoMemory;
use bt_ports::sequence::Sequence;
use bt_ports::text::Text;
use std::alloc::Global;

/// Names.
pub type Names = Sequence<Text>;

/// Whether a name is among names. It takes no memory.
pub fn has(names: &[Text], name: &str) -> bool
    ensures { result ≡ spec.has names.now name.now }
{
    names.iter().any(|x| x.as_str() == name)
}

/// Puts a copy of a name at the end.
pub fn push_name(alloc: Global, names: &mut Names, name: &str) -> Result<(), NoMemory>
    ensures { OnOk result (names.new.list ≡ names.old.list ++ name.now ∷ []) }
{
    let copy = Text::make(alloc, name)?;
    match names.push(copy) {
        Ok(()) => Ok(()),
        Err((NoMemory, _)) => Err(NoMemory),
    }
}
