// A list with places reserved ahead, whose last item may still change.
ghost use Rattle.std.specs.Prelude.{◌≡◌, ◌+◌, ◌≤◌, ◌<◌, ◌∷◌, ◌++◌, [], IsOk, OnOk, OnErr, length, List, Some, None};

use rmx_media::{Items, NoMemory};
use std::alloc::Global;
use std::marker::Model;

/// A list that grows into places reserved before, so that an item more wants no memory. Its last item may still be replaced.
#[derive(Drop)]
pub struct Places<T> {
    front: Items<T>,
    last: Option<T>,
    spare: usize,
}

impl<T> Model for Places<T> {
    ghost use Rattle.std.specs.Prelude.{◌≡◌, ◌+◌, ◌≤◌, ◌++◌, [], None};
    ghost use Rattle.rmx_media.specs.Items.{Held};
    ghost use Rattle.slave.specs.Places.{optional, count_of};

    ghost Value = { Held T };

    ghost view = { λ s. record { items = s.front.items ++ optional s.last; spare = s.spare } };

    ghost invariant = { λ s. (s.spare + count_of s.last ≤ s.front.spare) × (s.last ≡ None → s.front.items ≡ []) };
}

impl<T: Copy + Drop> Places<T> {
    /// An empty list without reserved places.
    pub fn new(alloc: Global) -> Places<T>
        ensures items { result.items ≡ [] }
        ensures spare { result.spare ≡ 0 }
    {
        Places {
            front: Items::new(alloc),
            last: None,
            spare: 0,
        }
    }

    /// Makes room for so many further items. A refusal changes nothing.
    pub fn reserve(&mut self, more: usize) -> Result<(), NoMemory>
        requires few { more < 16 }
        ensures items { self.new.items ≡ self.old.items }
        ensures ok { OnOk result (more ≤ self.new.spare) }
        ensures err { OnErr result (self.new ≡ self.old) }
        ensures kept { self.old.spare ≤ self.new.spare }
        ensures enough { more ≤ self.old.spare → IsOk result }
    {
        if more <= self.spare {
            return Ok(());
        }
        // One place is for the last item.
        self.front.reserve(more + 1)?;
        self.spare = more;
        Ok(())
    }

    /// Puts an item behind the last one, into a reserved place.
    pub fn push(&mut self, item: T)
        requires { 1 ≤ self.old.spare }
        ensures items { self.new.items ≡ self.old.items ++ item ∷ [] }
        ensures spare { self.new.spare + 1 ≡ self.old.spare }
    {
        if let Some(last) = self.last {
            self.front.push(last);
        }
        self.last = Some(item);
        self.spare -= 1;
    }

    /// The last item, if there is one.
    pub fn last(&self) -> Option<T>
        ensures none { result ≡ None → self.now.items ≡ [] }
        ensures some { (x : T) → result ≡ Some x → (front : List T) × (self.now.items ≡ front ++ x ∷ []) }
    {
        self.last
    }

    /// Puts another item in the place of the last one.
    pub fn replace_last(&mut self, item: T)
        requires { 0 < length self.old.items }
        ensures items { (front : List T) (x : T) → self.old.items ≡ front ++ x ∷ [] → self.new.items ≡ front ++ item ∷ [] }
        ensures spare { self.new.spare ≡ self.old.spare }
    {
        self.last = Some(item);
    }

    /// The whole list.
    pub fn into_items(self) -> Items<T>
        ensures { result.items ≡ self.items }
    {
        let Places {
            mut front,
            last,
            spare: _,
        } = self;
        if let Some(last) = last {
            front.push(last);
        }
        front
    }
}
