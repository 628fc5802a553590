//! A disk that is shut: no code above this crate has it by value without a key.
ghost use Rattle.std.specs.Prelude.{◌≡◌};

use std::fmt;
use std::marker::{Model, PhantomData};

/// A disk that is shut, as a store gives it up. Who has a key of its type alone can open it, and no store is made of it
/// without: so code above this crate that is generic over its disk, and is given no open disk and no key, makes no
/// device call but by the calls of a store, each of which says what every one of its device calls leaves.
#[derive(Drop)]
pub struct Shut<D> {
    pub(crate) disk: D,
}

impl<D> Model for Shut<D> {
    ghost Value = { D };

    ghost view = { λ s. s.disk };
}

impl<D> fmt::Debug for Shut<D> {
    fn fmt<W: fmt::Write>(&self, f: &mut fmt::Formatter<W>) -> fmt::Result {
        f.debug_struct("Shut").finish_non_exhaustive()
    }
}

/// What opens a disk that is shut: any of its type. Who has some disk of that type open can make one; no other call
/// does.
#[derive(Drop)]
pub struct Key<D> {
    of: PhantomData<D>,
}

impl<D> Key<D> {
    /// A key, for who has a disk of the type open: before a store is made of it. It opens any disk of that type that is
    /// shut, not this one alone.
    pub fn of(_disk: &D) -> Key<D> {
        Key { of: PhantomData }
    }

    /// Opens a disk.
    pub fn open(self, shut: Shut<D>) -> D
        ensures { result ≡ shut }
    {
        let Key { of: _ } = self;
        let Shut { disk } = shut;
        disk
    }
}
