use probe_run::{Halted, Running};

/// How a hart went that was let go.
#[derive(Debug, Drop)]
pub enum Gone {
    /// It runs, or has stopped again by itself.
    Free(Running),
    /// It is halted: stepping over the slots that had stopped it ended for another cause than the step.
    Stopped(Halted),
}
