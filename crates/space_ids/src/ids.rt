// Object ids: the names that have one, in the order in which the ids were given.
ghost use Rattle.std.specs.Prelude.{◌≡◌, [], false, nat_eq, option_map, IfOk, OnOk, OnErr};
ghost use Rattle.std.specs.List.{IsDistinct};
ghost use Rattle.std.specs.Set.{is_member};
ghost use Rattle.space_heap.specs.Objects.{resolved};
ghost use Rattle.space_ids.specs.GivenIds.{names_in, with_id, purged, refixed, still_kept, IsIdOf, IsFound};

use indexmap::IndexMap;
use space_heap::Heap;
use std::alloc::{AllocError as NoMemory, Global};
use std::marker::Model;

/// What an id leads to.
#[derive(Clone, Copy, Debug, PartialEq, Eq)]
pub enum Found {
    /// The id was never given.
    Never,
    /// The object is gone: a `purge` found it so.
    Gone,
    /// The address at which the object was last known to stand, in bytes. A `refix` brings it up to date.
    Here(u64),
}

// The most ids, so that each of them fits 64 bits. No memory holds as many.
const MOST_IDS: usize = 1 << 60;

/// Object ids, seen as the list of the names that have one, in the order in which the ids were given: 8, 16, 24 and so on. With
/// each name stands the address that is kept of its object, or that it is gone.
#[derive(Drop)]
pub struct Ids {
    given: IndexMap<u64, Option<u64>>,
}

impl Model for Ids {
    ghost use Rattle.space_ids.specs.GivenIds.{GivenIds};

    ghost Value = { GivenIds };

    ghost use Rattle.space_ids.specs.Inside.{view_from, IsInside};

    ghost view = { view_from };

    ghost invariant = { IsInside };
}

// The address that is kept, or `None` where no object that isn't gone stands there.
fn still_kept_in(heap: &Heap, kept: Option<u64>) -> Option<u64>
    ensures { result ≡ still_kept heap.now kept }
{
    let address = kept?;
    heap.object_at(heap.resolve(address))?;
    Some(address)
}

// The address that the object has now.
fn resolved_in(heap: &Heap, kept: Option<u64>) -> Option<u64>
    ensures { result ≡ option_map (resolved heap.now) kept }
{
    Some(heap.resolve(kept?))
}

impl Ids {
    /// No id is given yet. It takes no memory.
    pub fn new(alloc: Global) -> Ids
        ensures { result ≡ [] }
    {
        Ids {
            given: IndexMap::new(alloc),
        }
    }

    /// The id of the name, whose object stands at this address. It is given at the first asking: 8, 16, 24 and so on. An `Err` tells
    /// of no memory, comes only for a name without an id, and changes nothing.
    pub fn id_of(&mut self, name: u64, address: u64) -> Result<u64, NoMemory>
        ensures id { IfOk result (IsIdOf self.new name) }
        ensures given { OnOk result (self.new ≡ with_id self.old name address) }
        ensures distinct { IsDistinct nat_eq (names_in self.new) }
        ensures err { OnErr result (self.new ≡ self.old) }
        ensures absent { OnErr result (is_member nat_eq (names_in self.old) name ≡ false) }
    {
        if let Some(k) = self.given.get_index_of(&name) {
            return Ok(8 * (k as u64 + 1));
        }
        let count = self.given.len();
        if count >= MOST_IDS {
            return Err(NoMemory);
        }
        self.given.insert(name, Some(address))?;
        Ok(8 * (count as u64 + 1))
    }

    /// What the id leads to.
    pub fn find(&self, id: u64) -> Found
        ensures { IsFound self.now id result }
    {
        if id == 0 || id % 8 != 0 {
            return Found::Never;
        }
        match self.given.get_index((id / 8 - 1) as usize) {
            None => Found::Never,
            Some((_name, None)) => Found::Gone,
            Some((_name, Some(address))) => Found::Here(*address),
        }
    }

    /// Notes which objects are gone: those at whose kept address no object of this heap stands that isn't gone.
    pub fn purge(&mut self, heap: &Heap)
        ensures { self.new ≡ purged heap.now self.old }
    {
        for k in 0..self.given.len() {
            self.given[k] = still_kept_in(heap, self.given[k]);
        }
    }

    /// Each kept address becomes the one at which its object stands now.
    pub fn refix(&mut self, heap: &Heap)
        ensures { self.new ≡ refixed heap.now self.old }
    {
        for k in 0..self.given.len() {
            self.given[k] = resolved_in(heap, self.given[k]);
        }
    }
}

#[cfg(test)]
mod tests {
    use super::*;
    use space_model::{Guard, Style};
    use std::test::Fail;

    // A heap with an object at 0x10000 and none elsewhere.
    fn heap_with_one(alloc: Global) -> Result<Heap, Fail> {
        let mut heap = Heap::new(alloc, 1)?;
        let _page = heap.add_page(0);
        if heap.born() < 1 << 40 {
            let _made = heap.place(0, Guard::Protected, Style::Movable);
        }
        Ok(heap)
    }

    #[test]
    fn ids_are_given_once_and_lead_to_their_objects(rt: HostRuntime) -> Result<(), Fail> {
        let heap = heap_with_one(rt.alloc())?;
        let mut ids = Ids::new(rt.alloc());

        // A name, its address and its id, in the order of asking.
        for (name, address, id) in [
            (1, 0x10000, 8),
            (7, 0x10028, 16),
            (1, 0x10000, 8),
            (7, 0x10028, 16),
        ] {
            assert!(rt; ids.id_of(name, address) == Ok(id), "of {name}");
        }
        ids.refix(&heap);

        // An id, and what it leads to, before a purge and after it.
        for (id, before, after) in [
            (8, Found::Here(0x10000), Found::Here(0x10000)),
            (16, Found::Here(0x10028), Found::Gone),
            (0, Found::Never, Found::Never),
            (9, Found::Never, Found::Never),
            (24, Found::Never, Found::Never),
            (u64::MAX, Found::Never, Found::Never),
        ] {
            let mut purged = Ids::new(rt.alloc());
            assert!(rt; purged.id_of(1, 0x10000) == Ok(8) && purged.id_of(7, 0x10028) == Ok(16));
            purged.purge(&heap);
            assert!(rt;
                ids.find(id) == before && purged.find(id) == after,
                "at {id}"
            );
        }
        ids.purge(&heap);
        assert!(rt; ids.id_of(9, 0x10028) == Ok(24) && ids.find(16) == Found::Gone);
        Ok(())
    }
}
