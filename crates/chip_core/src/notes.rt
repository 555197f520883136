ghost use Rattle.std.specs.Prelude.{◌≡◌, ◌+◌, ◌≤◌, ◌++◌, length};
ghost use Rattle.debug_model.specs.Deeds.{access_points};
ghost use Rattle.sys_events.specs.Journal.{journal_room};

use debug_model::Point;
use sys_events::Journal;

/// Appends these points, in order.
#[inline(always)]
pub(crate) fn note_all(journal: &mut Journal, points: &[Point])
    requires { length journal.old + length points.now ≤ journal_room }
    ensures { journal.new ≡ journal.old ++ points.now }
{
    let mut rest = points;
    'points: while let [point, after @ ..] = rest {
        journal.note(*point);
        rest = after;
    }
}

/// Appends the point of an access, where one was made.
#[inline(always)]
pub(crate) fn note_access(journal: &mut Journal, accessed: bool)
    requires { length journal.old + 1 ≤ journal_room }
    ensures { journal.new ≡ journal.old ++ access_points accessed }
{
    if accessed {
        journal.note(Point::Access);
    }
}
