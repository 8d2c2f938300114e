// The accesses made, in places of their own: none is written when the list becomes empty.
ghost use Rattle.std.specs.Prelude.{◌≡◌, ◌<◌, ◌≤◌, [], ◌∷◌, ◌++◌, length};

use dwc2_regs::Access;
use std::marker::Model;

/// A list of at most 400 accesses.
#[derive(Drop)]
pub struct AccessList {
    places: [Access; 400],
    len: usize,
}

// Clauses see the accesses in the list, the oldest first.
impl Model for AccessList {
    ghost use Rattle.std.specs.Prelude.{◌≡◌, ◌≤◌, List, length, take};
    ghost use Rattle.dwc2_regs.specs.declared.access.Access.{Access};

    ghost Value = { List Access };

    ghost view = { λ l. take l.len l.places };

    ghost invariant = { λ l. (l.len ≤ 400) × (length l.places ≡ 400) };
}

impl AccessList {
    /// An empty list.
    pub fn new() -> AccessList
        ensures { result ≡ [] }
    {
        let none = Access {
            write: false,
            off: 0,
            value: 0,
        };
        AccessList {
            places: [none; 400],
            len: 0,
        }
    }

    /// How many accesses it has.
    #[inline(always)]
    pub fn len(&self) -> u16
        ensures count { result ≡ length self.now }
        ensures most { result ≤ 400 }
    {
        self.len as u16
    }

    /// The accesses, the oldest first.
    pub fn as_slice(&self) -> &[Access]
        ensures { result.now ≡ self.now }
    {
        &self.places[..self.len]
    }

    /// Puts an access behind the others, which must be fewer than 400.
    #[tactic(auto, using(std::proofs::lemmas::List::take_more_set))]
    #[inline(always)]
    pub fn push(&mut self, access: Access)
        requires { length self.old < 400 }
        ensures { self.new ≡ self.old ++ access ∷ [] }
    {
        let end = self.len;
        self.len = end + 1;
        self.places[end] = access;
    }

    /// Takes all away.
    pub fn clear(&mut self)
        ensures { self.new ≡ [] }
    {
        self.len = 0;
    }
}
