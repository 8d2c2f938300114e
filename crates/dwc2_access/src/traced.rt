ghost use Rattle.std.specs.Prelude.{◌≡◌, ◌<◌, [], ◌∷◌, ◌++◌, length};
ghost use Rattle.std.specs.Borrow.{Lends, sem};
ghost use Rattle.dwc2_access.specs.Trace.{traced};

use crate::Regs;
use arrayvec::ArrayVec;
use dwc2_regs::Access;

/// Registers with a list of the accesses made since the last `begin`.
#[derive(Drop)]
pub struct Traced<R> {
    inner: R,
    accesses: ArrayVec<Access, 400>,
}

impl<R: Regs + Drop> Traced<R> {
    ghost use Rattle.dwc2_access.specs.contracts.traced.Traced.{the_row};

    /// These registers, with no access listed yet.
    pub fn new(inner: R) -> Traced<R>
        ensures { result ≡ record { inner = inner; accesses = record { items = [] } } }
    {
        Traced {
            inner,
            accesses: ArrayVec::new(),
        }
    }

    /// The accesses since the last `begin`, the oldest first, at most 400.
    pub fn accesses(&self) -> &[Access]
        ensures { result.now ≡ self.now.accesses.items }
    {
        self.accesses.as_slice()
    }

    /// The inner registers. An access to them isn't listed.
    pub fn inner(&mut self) -> &mut R
        ensures value { result.now ≡ self.old.inner }
        ensures* writes_back { sem 𝓛 (Lends (the_row R.row) R.row self.entry result (λ w. record self.old { inner = w })) }
    {
        &mut self.inner
    }

    fn list(&mut self, access: Access)
        requires { length self.old.accesses.items < 400 }
        ensures { self.new ≡ record self.old { accesses = record { items = self.old.accesses.items ++ access ∷ [] } } }
    {
        self.accesses.push(access);
    }
}

impl<R: Regs + Drop> Regs for Traced<R> {
    ghost bank = { λ t. traced (R.bank t.inner) t.accesses.items };

    fn begin(&mut self) {
        self.inner.begin();
        self.accesses.clear();
    }

    #[tactic(auto, using(crate::proofs::Listed::read_listed))]
    fn read(&mut self, off: u16) -> u32 {
        let value = self.inner.read(off);
        self.list(Access {
            write: false,
            off,
            value,
        });
        value
    }

    #[tactic(auto, using(crate::proofs::Listed::write_listed))]
    fn write(&mut self, off: u16, value: u32) {
        self.inner.write(off, value);
        self.list(Access {
            write: true,
            off,
            value,
        });
    }
}
