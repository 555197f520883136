ghost use Rattle.std.specs.Prelude.{◌≡◌, map, IsTrue, IfSome, option_map};
ghost use Rattle.debug_model.specs.Registers.{named_registers, is_register, number_of_register, name_of_register};

use rv_model::register_number;

/// A register that a script can name, by its number for abstract commands
/// (RISC-V Debug Specification 1.0, Abstract Register Numbers).
#[derive(Clone, Copy, Debug, PartialEq, Eq)]
pub struct RegName(pub u16);

/// Each register's name, and its number: the CSRs, pc, and x0 to x31.
const NAMED_REGISTERS: [(&[u8], u16); 46] = [
    (b"mstatus", register_number::MSTATUS),
    (b"misa", register_number::MISA),
    (b"mie", register_number::MIE),
    (b"mtvec", register_number::MTVEC),
    (b"mscratch", register_number::MSCRATCH),
    (b"mepc", register_number::MEPC),
    (b"mcause", register_number::MCAUSE),
    (b"mtval", register_number::MTVAL),
    (b"mip", register_number::MIP),
    (b"mvendorid", register_number::MVENDORID),
    (b"marchid", register_number::MARCHID),
    (b"mimpid", register_number::MIMPID),
    (b"mhartid", register_number::MHARTID),
    (b"pc", register_number::DPC),
    (b"x0", register_number::X0),
    (b"x1", register_number::X0 + 1),
    (b"x2", register_number::X0 + 2),
    (b"x3", register_number::X0 + 3),
    (b"x4", register_number::X0 + 4),
    (b"x5", register_number::X0 + 5),
    (b"x6", register_number::X0 + 6),
    (b"x7", register_number::X0 + 7),
    (b"x8", register_number::X0 + 8),
    (b"x9", register_number::X0 + 9),
    (b"x10", register_number::X0 + 10),
    (b"x11", register_number::X0 + 11),
    (b"x12", register_number::X0 + 12),
    (b"x13", register_number::X0 + 13),
    (b"x14", register_number::X0 + 14),
    (b"x15", register_number::X0 + 15),
    (b"x16", register_number::X0 + 16),
    (b"x17", register_number::X0 + 17),
    (b"x18", register_number::X0 + 18),
    (b"x19", register_number::X0 + 19),
    (b"x20", register_number::X0 + 20),
    (b"x21", register_number::X0 + 21),
    (b"x22", register_number::X0 + 22),
    (b"x23", register_number::X0 + 23),
    (b"x24", register_number::X0 + 24),
    (b"x25", register_number::X0 + 25),
    (b"x26", register_number::X0 + 26),
    (b"x27", register_number::X0 + 27),
    (b"x28", register_number::X0 + 28),
    (b"x29", register_number::X0 + 29),
    (b"x30", register_number::X0 + 30),
    (b"x31", register_number::X0 + 31),
];

/// The table of names.
fn named_registers() -> &'static [(&'static [u8], u16)]
    ensures { map (λ r. (r.0.now, r.1)) result.now ≡ named_registers }
{
    &NAMED_REGISTERS
}

impl RegName {
    /// The register with this name.
    pub fn named(name: &[u8]) -> Option<RegName>
        ensures number { option_map (λ r. r.0) result ≡ number_of_register name.now }
        ensures known { IfSome result (λ r. IsTrue (is_register r.0)) }
    {
        for (known, number) in named_registers() {
            if *known == name {
                return Some(RegName(*number));
            }
        }
        None
    }

    /// The register's name, empty for a number that has none.
    pub fn name(self) -> &'static [u8]
        ensures { result.now ≡ name_of_register self.0 }
    {
        for (name, number) in named_registers() {
            if *number == self.0 {
                return name;
            }
        }
        b""
    }
}
