//! What each access to memory by a halted hart leaves of a told chip, by its own clauses. `specs/MemoryLaws.antt` has the statements.

ghost use Rattle.left_laws.specs.MemoryLaws.{LoadBlockLeaves, LoadLeaves, StoreBlockLeaves, StoreLeaves};

/// A load loses x8 and x9 where it breaks off.
pub fn load_leaves()
    ensures one { LoadLeaves }
    ensures block { LoadBlockLeaves }
{}

/// So does a store, and memory has the elements that were stored.
pub fn store_leaves()
    ensures one { StoreLeaves }
    ensures block { StoreBlockLeaves }
{}
