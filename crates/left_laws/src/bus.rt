//! What each access to memory by the system bus leaves of a told chip, by its own clauses. `specs/BusLaws.antt` has the statements.

ghost use Rattle.left_laws.specs.BusLaws.{BusLoadBlockLeaves, BusLoadLeaves, BusStoreBlockLeaves, BusStoreLeaves};

/// A load by the bus loses nothing.
pub fn bus_load_leaves()
    ensures one { BusLoadLeaves }
    ensures block { BusLoadBlockLeaves }
{}

/// Nor does a store, and memory has the elements that were stored.
pub fn bus_store_leaves()
    ensures one { BusStoreLeaves }
    ensures block { BusStoreBlockLeaves }
{}
