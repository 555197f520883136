use super::harts::{EXECUTE, Found, READ_X8, WRITE_X8, cmderr, hart_found};
use crate::CommandUnit;

/// What a write of `command` leaves: `cmderr`, and whether a command is under way.
fn start(command: u32, found: Found) -> (u32, bool) {
    let hart = hart_found(found);
    let mut unit = CommandUnit::new();
    let hart = if found == Found::Nowhere {
        None
    } else {
        Some(&hart)
    };
    unit.write_command(command, hart);
    (cmderr(&unit), unit.is_busy())
}

#[test]
fn refuses_for_the_first_reason(rt: HostRuntime) {
    let cases = [
        (READ_X8, Found::Halted, 0),
        (WRITE_X8, Found::Halted, 0),
        (EXECUTE, Found::Halted, 0),
        (0x0022_1005, Found::Halted, 0),
        // mhartid may be read, and not written.
        (0x0032_0f14, Found::Halted, 0),
        (0x0033_0f14, Found::Halted, 3),
        (0x0023_0f11, Found::Halted, 3),
        (0x0033_0301, Found::Halted, 0),
        // No such register, also where it is not even supported, or the hart does not serve.
        (0x0032_1020, Found::Halted, 3),
        (0x0032_07b2, Found::Halted, 3),
        (0x0032_1020, Found::Running, 4),
        (0x0012_1020, Found::Halted, 2),
        // Another sort of command, postincrement, and sizes of 8, 16 and 128 bits.
        (0x0100_0000, Found::Halted, 2),
        (0x0232_1008, Found::Nowhere, 2),
        (0x003a_1008, Found::Halted, 2),
        (0x0008_0000, Found::Running, 2),
        (0x0002_1008, Found::Halted, 2),
        (0x0012_1008, Found::Halted, 2),
        (0x0042_1008, Found::Resuming, 2),
        // The hart is not there, runs, or is about to.
        (READ_X8, Found::Nowhere, 4),
        (READ_X8, Found::Running, 4),
        (READ_X8, Found::Resuming, 4),
        (EXECUTE, Found::Nowhere, 4),
        (EXECUTE, Found::Running, 4),
        (EXECUTE, Found::Resuming, 4),
        (0x0033_0f14, Found::Running, 4),
        (0x0033_0f14, Found::Resuming, 4),
    ];
    for (command, found, error) in cases {
        assert_eq!(rt;
            start(command, found),
            (error, error == 0),
            "{command} {found:?}"
        );
    }
    // Without a transfer, size, register and direction tell nothing, and without a program there is nothing to do.
    for command in [0, 0x0041_1020, 0x0031_0f14] {
        assert_eq!(rt; start(command, Found::Halted), (0, false));
        assert_eq!(rt; start(command, Found::Running), (4, false));
    }
}

#[test]
fn starts_nothing_while_an_error_is_set(rt: HostRuntime) {
    let hart = hart_found(Found::Halted);
    // A command that sets the error, the bits of abstractcs that clear none of it, and those that clear it.
    for (refused, error, other, clears) in [
        (0x0100_0000, 2, 0x0500, 0x0200),
        (0x0032_1020, 3, 0, 0x0300),
    ] {
        let mut unit = CommandUnit::new();
        unit.write_command(refused, Some(&hart));
        assert_eq!(rt; cmderr(&unit), error);
        unit.write_command(READ_X8, Some(&hart));
        assert!(rt; !unit.is_busy());
        unit.write_abstractcs(other);
        assert_eq!(rt; cmderr(&unit), error);
        unit.write_abstractcs(clears);
        assert_eq!(rt; cmderr(&unit), 0);
        unit.write_command(READ_X8, Some(&hart));
        assert!(rt; unit.is_busy());
    }
}
