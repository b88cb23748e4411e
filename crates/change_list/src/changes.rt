// A list of changes.
ghost use Rattle.std.specs.Prelude.{◌≡◌, ◌++◌, ◌∷◌, [], if◌then◌else◌, is_ok, IfOk, replicate};
ghost use Rattle.change_list.specs.Lists as lists;
ghost use Rattle.change_list.specs.Lists.{IsRising, change};

use avf_base::OutOfMemory;
use std::alloc::Global;
use std::marker::Model;

/// A change in a cycle: what it leaves there, or what it does.
#[derive(Clone, Copy)]
pub struct Change<V> {
    pub cycle: u32,
    pub value: V,
}

/// Changes in the order in which they came.
#[derive(Drop)]
pub struct ChangeList<V> {
    changes: Vec<Change<V>>,
}

impl<V> Model for ChangeList<V> {
    ghost use Rattle.std.specs.Prelude.{List};
    ghost use Rattle.change_list.specs.declared.changes.Change.{Change};

    ghost Value = { List (Change V) };

    ghost view = { λ c. c.changes.items };
}

impl<V: Copy> ChangeList<V> {
    /// No change.
    pub fn new(alloc: Global) -> ChangeList<V>
        ensures { result ≡ [] }
    {
        ChangeList {
            changes: Vec::new(alloc),
        }
    }

    /// Puts a change behind the others. After want of memory the list is as it was.
    pub fn push(&mut self, cycle: u32, value: V) -> Result<(), OutOfMemory>
        ensures { self.new ≡ (if is_ok result then self.old ++ change cycle value ∷ [] else self.old) }
    {
        self.changes.push(Change { cycle, value })?;
        Ok(())
    }

    /// The first change from cycle `t` on, found by a binary search.
    pub fn first_from(&self, t: u32) -> Option<Change<V>>
        requires { IsRising self.now }
        ensures { result ≡ lists.first_from t self.now }
    {
        let earlier = self.changes.partition_point(|change| change.cycle < t);
        self.changes.get(earlier).copied()
    }

    /// What the last change in a cycle below `t` left, found by a binary search: `start` where there is none.
    pub fn value_before(&self, start: V, t: u32) -> V
        requires { IsRising self.now }
        ensures { result ≡ lists.value_before start self.now t }
    {
        let count = self.changes.partition_point(|change| change.cycle < t);
        if count == 0 {
            start
        } else {
            self.changes[count - 1].value
        }
    }

    /// What the last change left: `start` where there is none.
    pub fn last_value(&self, start: V) -> V
        ensures { result ≡ lists.last_value start self.now }
    {
        match self.changes.last() {
            Some(change) => change.value,
            None => start,
        }
    }
}

/// So many lists without a change.
pub fn empty_lists<V: Copy>(alloc: Global, count: u32) -> Result<Vec<ChangeList<V>>, OutOfMemory>
    ensures { IfOk result (λ v. v.items ≡ replicate count []) }
{
    let mut lists = Vec::new(alloc);
    for _list in 0..count {
        lists.push(ChangeList::new(alloc))?;
    }
    Ok(lists)
}
