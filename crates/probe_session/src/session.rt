ghost use Rattle.std.specs.Prelude.{◌<◌, ◌^◌};

use crate::known::Known;
use debug_model::Path;
use probe_run::Target;

/// A session with a chip that was opened: the hart that is selected, the way on which memory is reached, and what is known of the hart.
#[derive(Debug, Drop)]
pub struct Session {
    pub target: Target,
    pub hart: u16,
    pub path: Path,
    pub known: Known,
    ghost within: { hart < 2 ^ 10 },
}
