// Finalizers: a list of labels for each name, and the queue of such lists.
ghost use Rattle.std.specs.Prelude.{◌≡◌, ◌≢◌, ◌+◌, ◌++◌, ◌∷◌, [], length, true, false, MatchOption, IfNone, OnOk, OnErr};
ghost use Rattle.space_finals.specs.FinalLists.{HaveSameLabels, QueuesName};
ghost use Rattle.space_model.specs.Finalizers.{labels_of, pairs_of, without_name};

use indexmap::IndexMap;
use space_model::Ident;
use std::alloc::{AllocError as NoMemory, Global};
use std::collections::VecDeque;
use std::marker::Model;

/// A finalizer that ran: the name of its object, and the label that it was defined with.
#[derive(Clone, Copy, PartialEq, Eq)]
pub struct Ran {
    pub name: u64,
    pub label: Ident,
}

/// Finalizers that were defined, and those that wait to run, seen as two lists of pairs of a name and a label.
///
/// The order of definition counts among the finalizers of one name. How those of different names are mixed shows nowhere, and
/// no clause speaks of it.
#[derive(Drop)]
pub struct Finals {
    // The labels of each name, in order of definition. The queue has room for each name.
    defined: IndexMap<u64, Vec<Ident>>,
    queue: VecDeque<(u64, Vec<Ident>)>,
    // How many labels of the oldest name in the queue ran.
    ran: usize,
    // How many finalizers are defined or queued.
    count: u64,
    alloc: Global,
}

impl Model for Finals {
    ghost use Rattle.space_finals.specs.FinalLists.{FinalLists};

    ghost Value = { FinalLists };

    ghost use Rattle.space_finals.specs.Inside.{view_from, AreFinals};

    ghost view = { view_from };

    ghost invariant = { AreFinals };
}

impl Finals {
    /// Nothing is defined or queued. It takes no memory.
    pub fn new(alloc: Global) -> Finals
        ensures finals { result.finals ≡ [] }
        ensures queue { result.queue ≡ [] }
    {
        Finals {
            defined: IndexMap::new(alloc),
            queue: VecDeque::new(alloc),
            ran: 0,
            count: 0,
            alloc,
        }
    }

    /// Defines a finalizer of the name. It comes after the others of this name. Its place in the queue is taken with it, so that
    /// `queue` can't fail. An `Err` tells of no memory, and changes nothing.
    pub fn define(&mut self, name: u64, label: Ident) -> Result<(), NoMemory>
        ensures finals { OnOk result (HaveSameLabels self.new.finals (self.old.finals ++ (name, label) ∷ [])) }
        ensures queue { self.new.queue ≡ self.old.queue }
        ensures err { OnErr result (self.new ≡ self.old) }
    {
        // More than 2^64 - 1 finalizers have no room in memory.
        if self.count == u64::MAX {
            return Err(NoMemory);
        }
        if let Some(labels) = self.defined.get_mut(&name) {
            labels.push(label)?;
            self.count += 1;
            return Ok(());
        }
        self.queue.reserve(self.defined.len() + 1)?;
        let labels = Vec::from_slice(self.alloc, &[label])?;
        self.defined.insert(name, labels)?;
        self.count += 1;
        Ok(())
    }

    /// Takes all finalizers of the name away that aren't queued yet. The answer is their number.
    pub fn undefine(&mut self, name: u64) -> u64
        ensures count { result ≡ length (labels_of self.old.finals name) }
        ensures finals { HaveSameLabels self.new.finals (without_name self.old.finals name) }
        ensures queue { self.new.queue ≡ self.old.queue }
    {
        let Some(labels) = self.defined.swap_remove(&name) else {
            return 0;
        };
        let count = labels.len() as u64;
        self.count -= count;
        count
    }

    /// Moves the finalizers of the name to the end of the queue, in order of definition.
    pub fn queue(&mut self, name: u64)
        ensures { QueuesName self.old name self.new }
    {
        let Some(labels) = self.defined.swap_remove(&name) else {
            return;
        };
        let Ok(()) = self.queue.push_back((name, labels)) else {
            unreachable!();
        };
    }

    /// How many finalizers are defined or queued.
    pub fn len(&self) -> u64
        ensures { result ≡ length self.now.finals + length self.now.queue }
    {
        self.count
    }

    /// Whether a finalizer is defined that isn't queued yet.
    pub fn any_defined(&self) -> bool
        ensures some { result ≡ true → self.now.finals ≢ [] }
        ensures none { result ≡ false → self.now.finals ≡ [] }
    {
        self.defined.len() > 0
    }

    /// Takes the oldest finalizer out of the queue, or gives `None` where none is queued.
    pub fn run_one(&mut self) -> Option<Ran>
        ensures oldest { MatchOption result (self.old.queue ≡ []) (λ ran. self.old.queue ≡ (ran.name, ran.label) ∷ self.new.queue) }
        ensures none { IfNone result (self.new.queue ≡ []) }
        ensures finals { self.new.finals ≡ self.old.finals }
    {
        let (name, labels) = self.queue.front()?;
        let ran = Ran {
            name: *name,
            label: labels[self.ran],
        };
        self.ran += 1;
        self.count -= 1;
        if self.ran == labels.len() {
            self.queue.pop_front();
            self.ran = 0;
        }
        Some(ran)
    }
}

#[cfg(test)]
mod tests {
    use super::*;
    use std::test::Fail;

    fn label(text: &[u8]) -> Result<Ident, Fail> {
        let Some(label) = Ident::read(text) else {
            return Err(Fail::from("not a label"));
        };
        Ok(label)
    }

    // Whether these run next, and then none.
    fn run(finals: &mut Finals, wanted: &[(u64, Ident)]) -> bool {
        for (name, label) in wanted {
            let wanted = Ran {
                name: *name,
                label: *label,
            };
            if finals.run_one() != Some(wanted) {
                return false;
            }
        }
        finals.run_one() == None
    }

    #[test]
    fn finalizers_run_once_in_the_order_of_the_queue(rt: HostRuntime) -> Result<(), Fail> {
        let mut finals = Finals::new(rt.alloc());
        let one = label(b"one")?;
        let two = label(b"two")?;
        let three = label(b"three")?;
        assert!(rt; run(&mut finals, &[]));

        // Those of the name 1 and 2 are mixed.
        for (name, label) in [(1, one), (2, three), (1, two), (3, one), (1, one)] {
            assert!(rt; finals.define(name, label) == Ok(()));
        }

        assert!(rt; finals.len() == 5 && finals.any_defined());

        // A name, and how many of its finalizers are taken away.
        for (name, count) in [(3, 1), (3, 0), (4, 0)] {
            assert!(rt; finals.undefine(name) == count, "of {name}");
        }

        // What is queued runs once, whatever comes between.
        finals.queue(3);
        finals.queue(2);
        finals.queue(1);
        assert!(rt; finals.len() == 4 && !finals.any_defined());
        assert!(rt; finals.undefine(1) == 0 && finals.define(2, one) == Ok(()));
        finals.queue(1);
        assert!(rt; run(&mut finals, &[(2, three), (1, one), (1, two), (1, one)]));
        finals.queue(2);
        assert!(rt; run(&mut finals, &[(2, one)]));
        Ok(())
    }
}
