//! What is published: a version, and the log that it ends.
ghost use Rattle.std.specs.Prelude.{◌≡◌, IfOk};
ghost use Rattle.std.specs.Arc.{arc_value};
ghost use Rattle.book_history.specs.Logs.{newest_in};

use crate::seen_log::SeenLog;
use atomic_table::{Join, Split};
use crossbeam_utils::rule::{Outcome, Protocol};
use left_right::Absorb;
use left_right::reader::Reader;
use left_right::writer::Writer;
use std::alloc::{AllocError, Global};
use std::sync::Arc;
use versions::Version;

/// A version, and the log that it ends.
#[derive(Drop)]
pub struct Published {
    pub version: Arc<Version, Global>,
    pub seen_log: SeenLog,
    pub ghost last: { arc_value version ≡ newest_in seen_log.log },
}

impl Published {
    pub fn again(&self) -> Result<Published, AllocError>
        ensures { IfOk result (λ p. (p.seen_log ≡ self.now.seen_log)
            × (arc_value p.version ≡ arc_value self.now.version)) }
    {
        Ok(Published {
            version: Arc::try_clone(&self.version)?,
            seen_log: self.seen_log.again(),
        })
    }

    pub fn into_parts(self) -> (Arc<Version, Global>, SeenLog)
        ensures { (arc_value result.0 ≡ newest_in result.1.log) × (result.1 ≡ self.seen_log) }
    {
        let Published { version, seen_log } = self;
        (version, seen_log)
    }
}

/// An operation is what is published next.
impl Absorb<Published> for Published {
    type State = SeenLog;

    ghost state = { λ p. p.seen_log };

    ghost applied = { λ t p. p.seen_log };

    fn absorb_first(
        &mut self,
        operation: &Published,
        _other: &Published,
    ) -> Result<(), AllocError> {
        *self = operation.again()?;
        Ok(())
    }

    fn absorb_second(&mut self, operation: Published, _other: &Published) -> Result<(), Published> {
        *self = operation;
        Ok(())
    }
}

/// The log that is published only grows.
pub struct OnlyGrows;

impl Protocol<Published, SeenLog> for OnlyGrows {
    ghost use Rattle.book_history.specs.BookLogs.{AllWithin, newcomer};

    ghost holds = { λ p views. AllWithin p.seen_log views };

    ghost first = { newcomer };
}

/// A step that sees what is published after it.
pub struct Sees;

impl Outcome<Published, SeenLog> for Sees {
    ghost use Rattle.std.specs.Prelude.{◌≡◌};
    ghost use Rattle.book_history.specs.BookLogs.{Within};

    ghost then = { λ v x y w. Within v x.seen_log × (w ≡ y.seen_log) };
}

/// What the writer hands on: all that it knows.
pub struct TellsAll;

impl Split<SeenLog> for TellsAll {
    ghost left = { λ v. v };

    ghost right = { λ v. v };
}

impl Join<SeenLog> for TellsAll {
    ghost use Rattle.book_history.specs.BookLogs.{newcomer};

    ghost both = { λ v w. w };

    ghost spent = { newcomer };
}

/// A place from which a token reads what is published.
pub type ReaderPlace = Reader<Published, SeenLog, OnlyGrows>;

/// What publishes.
pub type Publisher = Writer<Published, Published, SeenLog, OnlyGrows>;
