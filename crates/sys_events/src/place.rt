ghost use Rattle.std.specs.Prelude.{◌≡◌, ◌-◌, ◌≤◌};
ghost use Rattle.debug_model.specs.Schedule.{following};

/// The place behind this one in a list of so many rounds: behind the last one it is the first.
#[inline(always)]
pub(crate) fn following(place: usize, count: usize) -> usize
    requires { place ≤ count - 1 }
    ensures { result ≡ following count place }
{
    if count - place > 1 { place + 1 } else { 0 }
}
