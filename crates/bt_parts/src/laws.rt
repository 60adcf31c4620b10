//! Laws of parts, each as the contract of a call that does nothing.
ghost use Rattle.std.specs.Prelude.{◌≡◌, ℕ, List, length, true};
ghost use Rattle.bt_batches.specs.declared.piece.Piece.{Piece};
ghost use Rattle.bt_demand.specs.Parts.{PartsFit};
ghost use Rattle.bt_outputs.specs.declared.output.Output.{Output};
ghost use Rattle.bt_parts.specs.Origins.{AllStand, BatchesStand};
ghost use Rattle.bt_parts.specs.Parts.{parts_by};
ghost use Rattle.bt_parts.specs.Plans.{stands_well};
ghost use Rattle.bt_ports.specs.declared.parts.Item.{Item};
ghost use Rattle.bt_proc.specs.Procs.{procs};
ghost use Rattle.bt_proc.specs.declared.tree.Processor.{Processor};

/// A law: what processors make of messages of so many items comes from these items. Each message that comes out has an
/// origin at least, its origins rise, and none is past the items, where this is so of the messages that go in. The call
/// does nothing.
pub fn origins_stay_known()
    ensures { (fs : List Processor) (moment items : ℕ) (ps : List Piece) →
        AllStand items ps → BatchesStand items (procs fs moment ps) }
{}

/// A law: the parts of a transaction fit it, whatever the processors are, where the output stands well: each comes from
/// items of the transaction, and its demand is well formed. The call does nothing.
pub fn parts_fit()
    ensures { (fs : List Processor) (o : Output) (sinks policies moment : ℕ) (is : List Item) →
        stands_well sinks policies o ≡ true →
        PartsFit sinks policies (length is) (parts_by fs o moment is) }
{}
