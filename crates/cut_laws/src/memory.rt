//! What a session leaves of a told chip where an access to memory failed. `specs/MemoryCutLaws.antt` has the statements.

ghost use Rattle.cut_laws.specs.MemoryCutLaws.{AskingPendingCut, LoadingBlockCut, StoringBlockCut};

/// Where a read of mip failed nothing is lost but what the plan was to write behind it.
pub fn pending_cut()
    ensures { AskingPendingCut }
{}

/// Where an access to a block failed x8 and x9 of the selected hart may be lost, and by the system bus nothing; no byte of memory is.
pub fn blocks_cut()
    ensures loading { LoadingBlockCut }
    ensures storing { StoringBlockCut }
{}
