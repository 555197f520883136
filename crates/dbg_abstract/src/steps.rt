//! What is still to be done of a command that is under way.

ghost use Rattle.std.specs.Prelude.{◌≡◌, ◌<◌, [], ◌∷◌, length, IfNone, IfSome};
ghost use Rattle.debug_model.specs.Commands.{is_under_way};

use arrayvec::ArrayVec;
use debug_model::Micro;

/// The most steps of one command: a transfer, and four words of the program buffer.
pub const MOST_STEPS: usize = 5;

/// The steps to come, the next one first.
pub type Steps = ArrayVec<Micro, MOST_STEPS>;

/// Whether there is a step to come.
#[inline(always)]
pub fn is_under_way(steps: &Steps) -> bool
    ensures { result ≡ is_under_way steps.now.items }
{
    !steps.is_empty()
}

/// Takes the next step, or `None` where there is none.
pub fn take_first(steps: &mut Steps) -> Option<Micro>
    ensures none { IfNone result (steps.old.items ≡ []) }
    ensures kept { IfNone result (steps.new ≡ steps.old) }
    ensures some { IfSome result (λ first. steps.old.items ≡ first ∷ steps.new.items) }
{
    if steps.is_empty() {
        return None;
    }
    Some(steps.remove(0))
}
