//! What servers leave, for the tests: it is hidden from the proofs, so that a function that owns it is proved soon.
ghost use Rattle.std.specs.Prelude.{ℕ};

use layer_expr::name::Name;
use overlay_server::SessionEnd;
use overlay_server::outcome::{Left, Served};
use root_store::shut::{Key, Shut};
use session_threads::port::Finished;
use std::marker::Model;

/// What a server leaves, with the key of its disk, of which a contract sees nothing.
pub struct Run<D> {
    served: Served<Shut<D>>,
    key: Option<Key<D>>,
}

impl<D> Model for Run<D> {
    ghost Value = { ℕ };

    ghost view = { λ _. 0 };
}

// Written out: of a derived drop, each function that owns one proves again what becomes of every part.
impl<D: Drop> Drop for Run<D> {
    fn drop(self) {
        let Run { served, key } = self;
        drop(served);
        drop(key);
    }
}

impl<D> Run<D> {
    pub fn new(served: Served<Shut<D>>, key: Option<Key<D>>) -> Run<D> {
        Run { served, key }
    }

    /// What a session wrote, and how it ended.
    pub fn session(&self, session: usize) -> Option<&Finished<Vec<u8>>> {
        self.served.sessions.get(session)
    }

    /// The number of the version that is stored.
    pub fn stored(&self) -> u64 {
        self.served.closed.stored
    }

    /// The number of the newest version.
    pub fn number(&self) -> u64 {
        self.served.closed.version.number()
    }

    /// The number of the version that was last reported.
    pub fn durable(&self) -> u64 {
        self.served.closed.version.durable()
    }

    /// Whether the newest version has the tile of a layer in a column.
    pub fn has_tile(&self, name: &Name, column: u8) -> bool {
        self.served.closed.version.tile(name, column).is_some()
    }

    /// Whether there is a disk.
    pub fn has_disk(&self) -> bool {
        self.served.closed.disk.is_some()
    }
}

impl<D: Drop> Run<D> {
    /// The disk, as the server has left it.
    pub fn into_disk(self) -> Option<D> {
        let Run { served, key } = self;
        let closed = served.closed;
        Some(key?.open(closed.disk?))
    }
}

/// What a server of ports leaves, with the key of its disk, of which a contract sees nothing.
pub struct PortsRun<W, D> {
    left: Left<W, Shut<D>>,
    key: Option<Key<D>>,
}

impl<W, D> Model for PortsRun<W, D> {
    ghost Value = { ℕ };

    ghost view = { λ _. 0 };
}

// Written out, as above.
impl<W: Drop, D: Drop> Drop for PortsRun<W, D> {
    fn drop(self) {
        let PortsRun { left, key } = self;
        drop(left);
        drop(key);
    }
}

impl<W, D> PortsRun<W, D> {
    pub fn new(left: Left<W, Shut<D>>, key: Option<Key<D>>) -> PortsRun<W, D> {
        PortsRun { left, key }
    }

    /// How many sessions there were.
    pub fn session_count(&self) -> usize {
        self.left.sessions.len()
    }

    /// The writer of a session.
    pub fn writer(&self, session: usize) -> Option<&W> {
        let one = self.left.sessions.get(session)?;
        Some(&one.writer)
    }

    /// How a session ended.
    pub fn end(&self, session: usize) -> Option<SessionEnd> {
        let one = self.left.sessions.get(session)?;
        Some(one.end)
    }

    /// The number of the version that is stored.
    pub fn stored(&self) -> u64 {
        self.left.closed.stored
    }
}

impl<W: Drop, D: Drop> PortsRun<W, D> {
    /// The disk, as the server has left it.
    pub fn into_disk(self) -> Option<D> {
        let PortsRun { left, key } = self;
        let closed = left.closed;
        Some(key?.open(closed.disk?))
    }
}
