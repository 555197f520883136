use super::bench::{Bench, DMCONTROL};
use debug_model::DmiOp;
use hart_debug::Start;

/// What each address reads after a write of all ones to every address but dmcontrol, in their order; the others read 0.
///
/// The write of `command` is one of another sort, so nothing starts any more, and that of `sbcs` asks for accesses of no size, so the
/// write of `sbaddress0` starts none and sets its error, and that of `sbdata0` is ignored.
const AFTER_ALL_ONES: [(u8, u32); 17] = [
    (0x04, 0xffff_ffff),
    (0x05, 0xffff_ffff),
    (0x10, 0x0000_0001),
    (0x11, 0x000c_0383),
    (0x16, 0x0400_0202),
    (0x17, 0),
    (0x18, 0x000f_0003),
    (0x20, 0xffff_ffff),
    (0x21, 0xffff_ffff),
    (0x22, 0xffff_ffff),
    (0x23, 0xffff_ffff),
    (0x38, 0x201f_c80f),
    (0x39, 0xffff_ffff),
    (0x3a, 0xffff_ffff),
    (0x3c, 0),
    (0x3d, 0xffff_ffff),
    (0x40, 0x0000_0001),
];

/// What an address reads behind those writes.
fn read_after_all_ones(bench: &mut Bench, address: u8) -> u32 {
    for at in 0..0x80 {
        if at != DMCONTROL {
            let _performed = bench
                .module
                .perform(DmiOp::Write(at, 0xffff_ffff), &mut bench.harts);
        }
    }
    bench
        .module
        .perform(DmiOp::Read(address), &mut bench.harts)
        .result
}

#[test]
fn reads_back_all_ones(rt: HostRuntime) {
    for address in 0..0x80 {
        let mut wanted = 0;
        for (at, word) in AFTER_ALL_ONES {
            if at == address {
                wanted = word;
            }
        }
        let mut bench = Bench::new(rt.alloc(), Start::Running).expect(&rt, "the smallest RAM");
        bench.write(DMCONTROL, 1);
        assert_eq!(rt;
            read_after_all_ones(&mut bench, address),
            wanted,
            "{address}"
        );
        // While the module does not work, they all read 0, and no write is taken.
        let mut bench = Bench::new(rt.alloc(), Start::Running).expect(&rt, "the smallest RAM");
        assert_eq!(rt; read_after_all_ones(&mut bench, address), 0, "{address}");
        bench
            .module
            .perform(DmiOp::Write(DMCONTROL, 1), &mut bench.harts);
        let fresh = match address {
            0x10 => 0x0000_0001,
            0x11 => 0x000c_0383,
            0x16 => 0x0400_0002,
            0x38 => 0x2004_080f,
            0x40 => 0x0000_0001,
            _ => 0,
        };
        let read = bench.module.perform(DmiOp::Read(address), &mut bench.harts);
        assert_eq!(rt; read.result, fresh, "{address}");
    }
}
