// Weak maps: for each map the links of its keys.
ghost use Rattle.std.specs.Prelude.{◌≡◌, ◌∷◌, [], None, nat_eq, not, is_some, option_map, IfOk, OnOk, OnErr};
ghost use Rattle.std.specs.List.Sorted.{IsPermutation};
ghost use Rattle.indexmap.specs.IndexMap.{IsUnique, index_map_len, with_entries};
ghost use Rattle.space_weak.specs.WeakEntries.{entry_with, entry_of, size_of, with_entry, without_entry, purged, refixed, AreApart};
ghost use Rattle.space_weak.specs.StoredEntries.{both_live, live_links, refixed_link, refixed_links};

use indexmap::IndexMap;
use space_heap::Heap;
use space_model::Ident;
use std::alloc::{AllocError as NoMemory, Global};
use std::marker::Model;

// What a key leads to: the value's name, and where the objects of the key and of the value were last known to stand.
#[derive(Clone, Copy)]
struct Link {
    key_address: u64,
    value_name: u64,
    value_address: u64,
}

/// Weak maps from names to names, seen as a list of entries: the map, the names of the key and of the value, and the addresses
/// that are kept of both, in bytes. The order of the entries shows nowhere, and the clauses leave it open.
#[derive(Drop)]
pub struct WeakMaps {
    // The links of each map. A map that lost its last entry to `delete` stays until the next `purge`.
    maps: IndexMap<Ident, IndexMap<u64, Link>>,
    alloc: Global,
}

impl Model for WeakMaps {
    ghost use Rattle.std.specs.Prelude.{List};
    ghost use Rattle.space_weak.specs.WeakEntries.{Entry};

    ghost Value = { List Entry };

    ghost use Rattle.space_weak.specs.Inside.{view_from, AreMaps};

    ghost view = { view_from };

    ghost invariant = { AreMaps };
}

// The links of a map with one key.
fn one_link(alloc: Global, key: u64, link: Link) -> Result<IndexMap<u64, Link>, NoMemory>
    ensures one { IfOk result (λ links. links.entries ≡ (key, link) ∷ []) }
    ensures own { IfOk result (IsUnique nat_eq) }
{
    let mut links = IndexMap::new(alloc);
    links.insert(key, link)?;
    Ok(links)
}

// Whether neither object is gone.
fn both_live_in(heap: &Heap, link: &Link) -> bool
    ensures { result ≡ both_live heap.now link.now }
{
    let key = heap.object_at(heap.resolve(link.key_address));
    let value = heap.object_at(heap.resolve(link.value_address));
    key.is_some() && value.is_some()
}

// Takes the links away of which an object is gone.
fn purge_links(heap: &Heap, links: &mut IndexMap<u64, Link>)
    ensures left { links.new.entries ≡ live_links heap.now links.old.entries }
    ensures own { IsUnique nat_eq links.new }
{
    links.retain(
        |_key: &u64, link: &mut Link| -> bool
            ensures { (result ≡ both_live heap.entry.now link.old) × (link.new ≡ link.old) }
        { both_live_in(heap, link) },
    );
}

// The link with the addresses at which its objects stand now.
fn refixed_link_of(heap: &Heap, link: Link) -> Link
    ensures { result ≡ refixed_link heap.now link }
{
    Link {
        key_address: heap.resolve(link.key_address),
        value_name: link.value_name,
        value_address: heap.resolve(link.value_address),
    }
}

// Each kept address becomes the one at which its object stands now.
fn refix_links(heap: &Heap, links: &mut IndexMap<u64, Link>)
    ensures { links.new ≡ with_entries links.old (refixed_links heap.now links.old.entries) }
{
    for k in 0..links.len() {
        links[k] = refixed_link_of(heap, links[k]);
    }
}

impl WeakMaps {
    /// No map has an entry. It takes no memory.
    pub fn new(alloc: Global) -> WeakMaps
        ensures { result ≡ [] }
    {
        WeakMaps {
            maps: IndexMap::new(alloc),
            alloc,
        }
    }

    /// Sets the entry of a key, which takes the place of the one that the key has in this map. An `Err` tells of no memory, comes only
    /// for a key that has none, and changes nothing.
    pub fn set(
        &mut self,
        weak: Ident,
        key: u64,
        key_address: u64,
        value: u64,
        value_address: u64,
    ) -> Result<(), NoMemory>
        ensures ok { OnOk result (IsPermutation (with_entry self.old (entry_with weak key key_address value value_address)) self.new) }
        ensures err { OnErr result (self.new ≡ self.old) }
        ensures absent { OnErr result (entry_of self.old weak key ≡ None) }
    {
        let link = Link {
            key_address,
            value_name: value,
            value_address,
        };
        if let Some(links) = self.maps.get_mut(&weak) {
            links.insert(key, link)?;
            return Ok(());
        }
        let links = one_link(self.alloc, key, link)?;
        self.maps.insert(weak, links)?;
        Ok(())
    }

    /// The address that is kept of the value, or `None` where the key has no entry in this map.
    pub fn get(&self, weak: Ident, key: u64) -> Option<u64>
        ensures value { result ≡ option_map (λ entry. entry.value_address) (entry_of self.now weak key) }
        // No two entries belong to one map and one key.
        ensures apart { AreApart self.now }
    {
        let link = self.maps.get(&weak)?.get(&key)?;
        Some(link.value_address)
    }

    /// Whether the key has an entry in this map.
    pub fn has(&self, weak: Ident, key: u64) -> bool
        ensures answer { result ≡ is_some (entry_of self.now weak key) }
        ensures apart { AreApart self.now }
    {
        self.get(weak, key).is_some()
    }

    /// How many entries the map has: 0 for a map of which nothing is known.
    pub fn size(&self, weak: Ident) -> u64
        ensures size { result ≡ size_of self.now weak }
        ensures apart { AreApart self.now }
    {
        match self.maps.get(&weak) {
            Some(links) => links.len() as u64,
            None => 0,
        }
    }

    /// Takes the entry of the key away, where there is one. The answer is whether there was one.
    pub fn delete(&mut self, weak: Ident, key: u64) -> bool
        ensures answer { result ≡ is_some (entry_of self.old weak key) }
        ensures rest { IsPermutation (without_entry self.old weak key) self.new }
    {
        let Some(links) = self.maps.get_mut(&weak) else {
            return false;
        };
        links.swap_remove(&key).is_some()
    }

    /// Takes each entry away of which the key or the value is gone: no object of this heap stands at its kept address that isn't gone.
    pub fn purge(&mut self, heap: &Heap)
        ensures { self.new ≡ purged heap.now self.old }
    {
        self.maps.retain(
            |_weak: &Ident, links: &mut IndexMap<u64, Link>| -> bool
                ensures { (links.new.entries ≡ live_links heap.entry.now links.old.entries) × IsUnique nat_eq links.new
                    × (result ≡ not (nat_eq (index_map_len links.new) 0)) }
            {
                purge_links(heap, links);
                !links.is_empty()
            },
        );
    }

    /// Each kept address becomes the one at which its object stands now.
    pub fn refix(&mut self, heap: &Heap)
        ensures { self.new ≡ refixed heap.now self.old }
    {
        for k in 0..self.maps.len() {
            refix_links(heap, &mut self.maps[k]);
        }
    }
}

#[cfg(test)]
mod tests {
    use super::*;
    use space_model::{Guard, Style};
    use std::test::Fail;

    fn name(text: &[u8]) -> Result<Ident, Fail> {
        let Some(name) = Ident::read(text) else {
            return Err(Fail::from("not a name"));
        };
        Ok(name)
    }

    // A heap with objects at 0x10000 and 0x10028, and none elsewhere.
    fn heap_with_two(alloc: Global) -> Result<Heap, Fail> {
        let mut heap = Heap::new(alloc, 1)?;
        let _page = heap.add_page(0);
        for _ in 0..2 {
            if heap.born() < 1 << 40 {
                let _made = heap.place(0, Guard::Protected, Style::Movable);
            }
        }
        Ok(heap)
    }

    #[test]
    fn entries_belong_to_one_map_and_go_with_their_objects(rt: HostRuntime) -> Result<(), Fail> {
        let heap = heap_with_two(rt.alloc())?;
        let mut maps = WeakMaps::new(rt.alloc());
        let m = name(b"m")?;
        let n = name(b"n")?;
        let k = name(b"k")?;
        assert!(rt; maps.size(m) == 0 && maps.get(m, 1) == None && !maps.delete(m, 1));

        // A map, a key and a value, each with its address, and the size of the map after it.
        for (weak, key, key_address, value, value_address, size) in [
            (m, 1, 0x10000, 2, 0x10028, 1),
            (m, 2, 0x10028, 9, 0x10050, 2),
            (m, 9, 0x10050, 1, 0x10000, 3),
            (m, 1, 0x10000, 1, 0x10000, 3),
            (n, 2, 0x10028, 2, 0x10028, 1),
            (n, 1, 0x10000, 1, 0x10000, 2),
            (k, 9, 0x10050, 9, 0x10050, 1),
        ] {
            assert!(rt; maps.set(weak, key, key_address, value, value_address) == Ok(()));
            assert!(rt; maps.get(weak, key) == Some(value_address) && maps.size(weak) == size);
        }
        assert!(rt; maps.delete(n, 2) && !maps.delete(n, 2) && !maps.delete(n, 9));
        assert!(rt; maps.size(n) == 1 && maps.has(n, 1) && !maps.has(n, 2) && maps.has(m, 2));

        // A map, a key, and the value's address once the object 9 is gone.
        maps.refix(&heap);
        maps.purge(&heap);
        for (weak, key, address) in [
            (m, 1, Some(0x10000)),
            (m, 2, None),
            (m, 9, None),
            (n, 1, Some(0x10000)),
            (k, 9, None),
        ] {
            assert!(rt; maps.get(weak, key) == address && maps.has(weak, key) == address.is_some());
        }
        assert!(rt; maps.size(m) == 1 && maps.size(n) == 1 && maps.size(k) == 0);
        Ok(())
    }
}
