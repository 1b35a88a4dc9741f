// What one instruction comes to.
ghost use Rattle.std.specs.Prelude.{◌≡◌};
ghost use Rattle.calls.specs.Calls.{progress_of, step_of};

use answers::outcome::Outcome;

// The next instruction may follow, a write call waits to be completed, or the executor has ended.
#[derive(Clone, Copy)]
pub enum Step {
    // the next instruction may follow
    Running,
    // a write call whose buffer was checked and read through: whoever runs the step takes the bytes or not, and then
    // completes the call
    Write { buffer: u64, size: u64 },
    Ended(Outcome),
}

pub(crate) fn step_of(called: Result<(), Outcome>) -> Step
    ensures { result ≡ step_of (progress_of called) }
{
    match called {
        Ok(()) => Step::Running,
        Err(outcome) => Step::Ended(outcome),
    }
}
