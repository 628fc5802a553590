//! Work on a book that a thread of its own is given, and gives back.
ghost use Rattle.std.specs.Prelude.{◌≡◌, MatchResult};

use std::snapshot::Snapshot;
use std::sync::Wait;
use std::thread::{Promise, PromisedHandle, Scope};
use version_book::closer::Closer;
use version_book::seen_log::BookName;
use version_book::shared::Shared;

/// What a thread works on until the book closes, and gives back.
pub trait Task {
    /// What is asked as it begins.
    ghost can_run: { Self → Type 0 };

    /// What it was as it began, and what it is once it has run.
    ghost ran: { Self → Self → Type 0 };

    /// Runs it.
    fn run(self) -> Self
        requires { can_run self }
        ensures { ran self result };
}

/// What a task's thread promises: it ran the task with which it began.
#[derive(Drop)]
pub struct RunsTask<T: Task> {
    begun: Snapshot<T>,
}

impl<T: Task> Promise<T> for RunsTask<T> {
    ghost kept_by = { λ p r. T.ran p.begun.value r };
}

/// A thread that runs a task, or the task as it was run here, since no thread could start.
pub type Begun<T> = Result<PromisedHandle<T, RunsTask<T>>, T>;

/// Starts the thread of a task. Where it is refused the book closes, and the task is run here.
pub fn start_task<'s, E, J: BookName, S: Wait + Drop, Q: Wait, T: Task + Send + Drop + 's>(
    scope: &'s Scope<'s, E>,
    rt: &Q,
    shared: &Shared<J, S>,
    closer: &mut Closer<J>,
    task: T,
) -> Begun<T>
    requires { T.can_run task }
    ensures { MatchResult result (λ h. h.promise.begun.value ≡ task) (λ after. T.ran task after) }
{
    let promise = RunsTask {
        begun: Snapshot::of(&task),
    };
    let started = scope.spawn_with(
        promise,
        move || -> T
            requires { T.can_run task }
            ensures { T.ran task result }
        { task.run() },
    );
    match started {
        Ok(handle) => Ok(handle),
        Err(refused) => {
            // In a book that closes the task waits for nobody.
            shared.begin_close(rt, closer);
            Err((refused.value)())
        }
    }
}
