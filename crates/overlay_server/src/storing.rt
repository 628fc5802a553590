//! The store in a thread of its own, which it is lent to.
ghost use Rattle.std.specs.Prelude.{◌≡◌};
ghost use Rattle.store_flushing.specs.Stores.{reporter_of};
ghost use Rattle.overlay_server.specs.Keeping.{HoldsOfStore, IsStoreKept};

use crate::tasks::Task;
use disk_model::disk::Disk;
use std::alloc::Global;
use std::sync::Wait;
use store_flushing::keeper::flush;
use store_flushing::keeper::store::Store;
use version_book::seen_log::BookName;
use version_book::shared::Shared;

/// A store that is lent to its thread, with the book whose versions it commits. What a thread gives back has to be
/// `Drop`, since one that nobody takes in lets it go: so it is lent the store, whose disk cannot be let go.
#[derive(Drop)]
pub struct LentStore<'a, J: BookName, S: Wait + Drop, Q: Wait, D: Disk> {
    pub rt: &'a Q,
    pub alloc: Global,
    pub shared: &'a Shared<J, S>,
    pub store: &'a mut Store<D>,
}

impl<'a, J: BookName, S: Wait + Drop, Q: Wait, D: Disk> Task for LentStore<'a, J, S, Q, D> {
    ghost use Rattle.std.specs.Prelude.{◌≡◌};
    ghost use Rattle.store_flushing.specs.Stores.{reporter_of};
    ghost use Rattle.overlay_server.specs.Keeping.{HoldsOfStore, IsStoreKept};

    ghost can_run = { λ t. ((reporter_of t.store.now).book ≡ J.book)
        × HoldsOfStore D.Disk J.store J.stored J.failed t.store.now };

    ghost ran = { λ t r. (r.store.ghost_name ≡ t.store.ghost_name)
        × IsStoreKept J.book D.Disk t.store.now r.store.now };

    fn run(self) -> LentStore<'a, J, S, Q, D> {
        let LentStore {
            rt,
            alloc,
            shared,
            store,
        } = self;
        keep_store(rt, alloc, shared, store);
        LentStore {
            rt,
            alloc,
            shared,
            store,
        }
    }
}

/// Commits what the book gives until it closes.
pub fn keep_store<J: BookName, S: Wait + Drop, Q: Wait, D: Disk>(
    rt: &Q,
    alloc: Global,
    shared: &Shared<J, S>,
    store: &mut Store<D>,
)
    requires book { (reporter_of store.old).book ≡ J.book }
    // What the store comes to hold may be reported durable.
    requires stored { HoldsOfStore D.Disk J.store J.stored J.failed store.old }
    ensures { IsStoreKept J.book D.Disk store.old store.new }
{
    match store {
        Store::Kept(keeper) => flush(rt, alloc, shared, keeper),
        Store::Alone(_) => {}
    }
}
