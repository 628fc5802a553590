//! Whether the tiles of a strip are still wanted.
use crossing_sweep::Wish;
use plane_base::Column;
use std::alloc::Global;
use std::cell::Cell;
use std::sync::Wait;
use version_book::seen_log::BookName;
use version_book::shared::Shared;
use version_book::strip_job::StripJob;

/// A strip that a worker has in hand. It is wanted while the book is open and one of its tiles that are not spent is
/// awaited. The inputs are compared again only once a command was accepted.
#[derive(Drop)]
pub(crate) struct StripWish<'a, J: BookName, R: Wait + Drop, W: Wait> {
    rt: &'a W,
    alloc: Global,
    shared: &'a Shared<J, R>,
    strip: &'a StripJob,
    /// The number of the version in which it was found awaited last.
    number: Cell<Option<u64>>,
}

impl<'a, J: BookName, R: Wait + Drop, W: Wait> StripWish<'a, J, R, W> {
    /// A strip that was handed out.
    pub fn new(
        rt: &'a W,
        alloc: Global,
        shared: &'a Shared<J, R>,
        strip: &'a StripJob,
    ) -> StripWish<'a, J, R, W> {
        StripWish {
            rt,
            alloc,
            shared,
            strip,
            number: Cell::new(None),
        }
    }

    /// Whether one of its tiles that are not spent is awaited, for all that is known.
    fn is_awaited(&self) -> bool {
        let input = self.strip.input();
        for number in self.strip.next()..input.strip().last().number() + 1 {
            let Some(column) = Column::new(u64::from(number)) else {
                unreachable!()
            };
            match input.column_input(self.alloc, column) {
                Ok(own) => if self.shared.awaits(self.rt, self.strip.name(), &own) {
                    return true;
                },
                Err(_) => return true,
            }
        }
        false
    }
}

impl<J: BookName, R: Wait + Drop, W: Wait> Wish for StripWish<'_, J, R, W> {
    /// Nothing can be said of what lies under a lock that others may have taken since.
    ghost ended = { λ wish. Unit {0} };

    fn is_wanted(&self) -> bool {
        let Some(number) = self.shared.open_number(self.rt) else {
            return false;
        };
        if self.number.get() == Some(number) {
            return true;
        }
        self.number.set(Some(number));
        self.is_awaited()
    }
}
