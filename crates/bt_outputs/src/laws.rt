//! Laws of what outputs ask, each as the contract of a call that does nothing.
ghost use Rattle.std.specs.Prelude.{◌≡◌, ℕ, ◌<◌, ◌≤◌, List, [], true, Some};
ghost use Rattle.std.specs.List.{All};
ghost use Rattle.bt_demand.specs.Asked.{IsClean};
ghost use Rattle.bt_demand.specs.WellFormed.{WellFormed, leaves, nodes};
ghost use Rattle.bt_meaning.specs.declared.message.Spot.{Spot};
ghost use Rattle.bt_outputs.specs.Asked.{Given, arrived, asked, route};
ghost use Rattle.bt_outputs.specs.Bytes.{with_bytes};
ghost use Rattle.bt_outputs.specs.Clean.{rejects_nothing};
ghost use Rattle.bt_outputs.specs.Numbers.{Next, from_start, numbers};
ghost use Rattle.bt_outputs.specs.declared.output.Output.{Output};
ghost use Rattle.bt_outputs.specs.declared.output.Shift.{Shift};
ghost use Rattle.bt_value.specs.declared.message.Msg.{Msg};

/// A law: what an output asks of a message is well formed, where the output stands well for the sinks that there are and
/// has no more holds than there are policies, and 64 at most. Its leaves are among those that are numbered, and without a
/// numbered hold it has none. The call does nothing.
pub fn demands_are_well_formed()
    ensures well_formed { (sinks policies : ℕ) (o : Output) (end : Next) → numbers sinks o from_start ≡ Some end →
        end.hold ≤ policies → end.hold ≤ 64 →
        (x : Msg) (at : Spot) → WellFormed sinks policies (asked o x at) }
    ensures numbered { (sinks : ℕ) (o : Output) (end : Next) → numbers sinks o from_start ≡ Some end →
        (x : Msg) (at : Spot) → All (λ l. l < end.leaf) (leaves (asked o x at)) }
    ensures without_holds { (sinks : ℕ) (o : Output) (end : Next) → numbers sinks o from_start ≡ Some end →
        end.hold ≡ 0 → (x : Msg) (at : Spot) → nodes (asked o x at) ≡ [] }
{}

/// A law: what an output asks reaches no reject, where the output stands well and has no `reject`, no `reject_errored` and
/// no `strict_mode`. The call does nothing.
pub fn without_rejects_all_is_clean()
    ensures { (sinks : ℕ) (o : Output) (end : Next) → numbers sinks o from_start ≡ Some end →
        rejects_nothing o ≡ true → (x : Msg) (at : Spot) → IsClean (asked o x at) }
{}

/// A law: all records of a demand have the same bytes, which nothing else in it depends on. So they can be put in last. The
/// call does nothing.
pub fn bytes_come_last()
    ensures { (o : Output) (s : Shift) (x : Given) (bytes : List ℕ) →
        with_bytes bytes (route o s x) ≡ route o s (record x { bytes = bytes }) }
{}
