//! Laws of the system bus; `specs/BusLaws.antt` has the statements.

ghost use Rattle.chip_laws.specs.BusLaws.{BusReadsMemory, BusWritesMemory};

/// A read of the bus brings what memory holds there, and the address grows; where memory refuses it, address and data stay.
///
/// Source: RISC-V Debug Specification 1.0, "System Bus Access Control and Status" and "System Bus Data 31:0".
pub fn bus_reads_memory()
    ensures { BusReadsMemory }
{}

/// A write of the bus is one store of the data, and the address grows; where memory refuses it, address and data stay.
///
/// Source: RISC-V Debug Specification 1.0, "System Bus Access Control and Status" and "System Bus Data 31:0".
pub fn bus_writes_memory()
    ensures { BusWritesMemory }
{}
