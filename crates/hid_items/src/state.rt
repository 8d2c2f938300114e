ghost use Rattle.std.specs.Prelude.{◌≡◌, ◌+◌, ◌-◌, ◌^◌, ◌<◌, ◌==◌, not, nat_le, ◌∷◌, length, reverse};
ghost use Rattle.hid_items.specs.State.{State, start, popped};
ghost use Rattle.hid_items.specs.Lengths.{push_limit};

use arrayvec::ArrayVec;
use std::marker::Model;

/// The global items that lengths depend on (HID 1.11, 6.2.2.7). The id 0 is no Report ID.
#[derive(Clone, Copy, Default)]
pub(crate) struct Globals {
    /// Report Size, the bits of one field.
    pub size: u32,
    /// Report Count, how many such fields an item has.
    pub count: u32,
    /// Report ID.
    pub id: u8,
}

/// How many states may be pushed at one time.
const PUSH_LIMIT: usize = 4;

/// The item state table: the global items in force and those that were pushed, with the collections
/// that are open.
#[derive(Drop)]
pub(crate) struct ItemState {
    globals: Globals,
    pushed: ArrayVec<Globals, PUSH_LIMIT>,
    open_collections: u16,
}

impl Model for ItemState {
    ghost Value = { State };

    ghost view = { λ s. record { globals = s.globals; pushed = reverse s.pushed.items; open_collections = s.open_collections } };
}

impl ItemState {
    pub(crate) fn new() -> Self
        ensures { result ≡ start }
    {
        ItemState {
            globals: Globals {
                size: 0,
                count: 0,
                id: 0,
            },
            pushed: ArrayVec::new(),
            open_collections: 0,
        }
    }

    pub(crate) fn globals(&self) -> Globals
        ensures { result ≡ self.now.globals }
    {
        self.globals
    }

    pub(crate) fn open_collections(&self) -> u16
        ensures { result ≡ self.now.open_collections }
    {
        self.open_collections
    }

    pub(crate) fn set_size(&mut self, size: u32)
        ensures { self.new ≡ record (self.old) { globals = record (self.old.globals) { size = size } } }
    {
        self.globals.size = size;
    }

    pub(crate) fn set_count(&mut self, count: u32)
        ensures { self.new ≡ record (self.old) { globals = record (self.old.globals) { count = count } } }
    {
        self.globals.count = count;
    }

    pub(crate) fn set_id(&mut self, id: u8)
        ensures { self.new ≡ record (self.old) { globals = record (self.old.globals) { id = id } } }
    {
        self.globals.id = id;
    }

    /// Whether there is no room for another Push.
    pub(crate) fn is_full(&self) -> bool
        ensures { result ≡ nat_le push_limit (length self.now.pushed) }
    {
        self.pushed.is_full()
    }

    pub(crate) fn push(&mut self)
        requires { length self.old.pushed < push_limit }
        ensures { self.new ≡ record (self.old) { pushed = self.old.globals ∷ self.old.pushed } }
    {
        self.pushed.push(self.globals);
    }

    /// Brings back the latest globals that were pushed, and tells whether there were any.
    pub(crate) fn pop(&mut self) -> bool
        ensures found { result ≡ not (length self.old.pushed == 0) }
        ensures after { self.new ≡ popped self.old self.old.pushed }
    {
        match self.pushed.pop() {
            Some(globals) => {
                self.globals = globals;
                true
            }
            None => false,
        }
    }

    pub(crate) fn open(&mut self)
        requires { self.old.open_collections + 1 < 2 ^ 16 }
        ensures { self.new ≡ record (self.old) { open_collections = self.old.open_collections + 1 } }
    {
        self.open_collections += 1;
    }

    pub(crate) fn close(&mut self)
        requires { 0 < self.old.open_collections }
        ensures { self.new ≡ record (self.old) { open_collections = self.old.open_collections - 1 } }
    {
        self.open_collections -= 1;
    }
}
