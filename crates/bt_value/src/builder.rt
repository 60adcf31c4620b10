//! Members that come in any order.
ghost use Rattle.std.specs.Prelude.{◌≡◌, [], OnOk, OnErr, IfOk, map, string_bytes};
ghost use Rattle.std.specs.BTreeMap.{insert_entry};
ghost use Rattle.std.specs.Cmp.Lexicographic.{slice_cmp};
ghost use Rattle.std.specs.Ordering.{nat_cmp};
ghost use Rattle.bt_value.specs.Keys.{put_all};

use crate::fields::Fields;
use bt_ports::NoMemory;
use bt_ports::text::Text;
use std::alloc::Global;
use std::collections::BTreeMap;
use std::marker::Model;

// As many members are put in their place one by one, which moves those above it.
const FEW: usize = 64;

/// Members that are put in one after another, which contracts see as a list of pairs of key and
/// value.
///
/// All together they cost no more than a sort, in whatever order they come.
#[derive(Drop)]
pub struct FieldsBuilder<V> {
    members: Fields<V>,
    // Those that came since one came out of order among many.
    late: Vec<(Text, V)>,
}

impl<V> Model for FieldsBuilder<V> {
    ghost use Rattle.std.specs.Prelude.{List, ℕ};
    ghost use Rattle.std.specs.Coded.{coded_list, coded×, coded_ℕ};
    ghost use Rattle.bt_value.specs.Keys.{put_all};

    ghost Value = { List (List ℕ × V) };

    ghost coded = { coded_list (coded× (coded_list coded_ℕ) V.code) };

    ghost view = { λ b. put_all b.members b.late.items };
}

impl<V> FieldsBuilder<V> {
    /// No members. It takes no memory.
    pub fn new(alloc: Global) -> FieldsBuilder<V>
        ensures { result ≡ [] }
    {
        FieldsBuilder {
            members: Fields::new(alloc),
            late: Vec::new(alloc),
        }
    }
}

impl<V: Drop> FieldsBuilder<V> {
    /// Puts a member in, as `Fields::put` does.
    #[inline(always)]
    pub fn put(&mut self, key: Text, value: V) -> Result<(), NoMemory>
        ensures ok { OnOk result (self.new ≡ insert_entry (slice_cmp nat_cmp) self.old key value) }
        ensures err { OnErr result (self.new ≡ self.old) }
    {
        if self.late.is_empty()
            && (self.members.len() < FEW || self.members.ends_below(key.as_str()))
        {
            return self.members.put(key, value);
        }
        self.late.push((key, value))?;
        Ok(())
    }

    /// The members.
    #[inline(always)]
    pub fn finish(self) -> Result<Fields<V>, NoMemory>
        ensures { IfOk result (λ f. f ≡ self) }
    {
        let FieldsBuilder { members, late } = self;
        if late.is_empty() {
            return Ok(members);
        }
        with_late(members, late)
    }
}

// The members with the late ones put in.
#[inline(never)]
fn with_late<V: Drop>(members: Fields<V>, late: Vec<(Text, V)>) -> Result<Fields<V>, NoMemory>
    ensures { IfOk result (λ f. f ≡ put_all members late.items) }
{
    let alloc = *late.allocator();
    let mut sorted = BTreeMap::new(alloc);
    put_pairs(&mut sorted, members.into_vec())?;
    put_pairs(&mut sorted, late)?;
    in_order(alloc, sorted)
}

// Puts pairs of key and value in, one after another.
fn put_pairs<V: Drop>(
    sorted: &mut BTreeMap<String, V>,
    pairs: Vec<(Text, V)>,
) -> Result<(), NoMemory>
    ensures { OnOk result (map (λ e. (string_bytes e.0, e.1)) sorted.new.entries
        ≡ put_all (map (λ e. (string_bytes e.0, e.1)) sorted.old.entries) pairs.items) }
{
    for (key, value) in pairs {
        sorted.insert(key.into_string(), value)?;
    }
    Ok(())
}

// The members of a map.
fn in_order<V: Drop>(alloc: Global, sorted: BTreeMap<String, V>) -> Result<Fields<V>, NoMemory>
    ensures { IfOk result (λ f. f ≡ map (λ e. (string_bytes e.0, e.1)) sorted.entries) }
{
    let mut members = Fields::new(alloc);
    for (key, value) in sorted {
        members.push(Text::from_string(key), value)?;
    }
    Ok(members)
}
