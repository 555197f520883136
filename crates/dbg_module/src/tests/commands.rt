use super::bench::{
    ABSTRACTAUTO, ABSTRACTCS, Bench, COMMAND, DATA0, DATA1, DMCONTROL, EBREAK, PROGBUF0,
    SBADDRESS0, SBCS, SBDATA0,
};
use debug_model::DmiOp;
use hart_debug::Start;

#[test]
fn refuses_a_hart_that_is_about_to_resume(rt: HostRuntime) {
    let mut bench = Bench::new(rt.alloc(), Start::Running).expect(&rt, "the smallest RAM");
    bench.write(DMCONTROL, 0x4000_0001);
    bench.write(COMMAND, 0x0022_1005);
    assert_eq!(rt; bench.read(ABSTRACTCS), 0x0400_0402);
    assert!(rt; !bench.command_step());
    // Nor one that runs, nor one that is not there; the error goes by hand.
    for select in [0x0001_0001, 0x0002_0001] {
        let mut bench = Bench::new(rt.alloc(), Start::Running).expect(&rt, "the smallest RAM");
        bench.write(DMCONTROL, select);
        bench.write(COMMAND, 0x0022_1005);
        assert_eq!(rt; bench.read(ABSTRACTCS), 0x0400_0402);
        bench.write(ABSTRACTCS, 0x0000_0400);
        assert_eq!(rt; bench.read(ABSTRACTCS), 0x0400_0002);
    }
}

#[test]
fn serves_the_selected_hart_alone(rt: HostRuntime) {
    let mut bench = Bench::new(rt.alloc(), Start::Halted).expect(&rt, "the smallest RAM");
    bench.write(DMCONTROL, 0x0001_0001);
    bench.write(DATA0, 0x8000_0010);
    bench.write(DATA1, 0);
    bench.write(COMMAND, 0x0033_1008);
    assert_eq!(rt; bench.read(ABSTRACTCS), 0x0400_1002);
    assert!(rt; !bench.command_step());
    assert_eq!(rt; bench.read(ABSTRACTCS), 0x0400_0002);
    assert_eq!(rt; bench.harts[1].hart().x(8), 0x8000_0010);
    assert_eq!(rt; bench.harts[0].hart().x(8), 0);
    // `sw x8, 0(x8)`, `ebreak`: one access, and the system bus sees what it stored.
    bench.write(PROGBUF0, 0x0084_2023);
    bench.write(PROGBUF0 + 1, EBREAK);
    bench.write(COMMAND, 0x0004_0000);
    assert!(rt; bench.command_step());
    assert!(rt; !bench.command_step());
    assert_eq!(rt; bench.read(ABSTRACTCS), 0x0400_0002);
    bench.write(SBCS, 0x0014_0000);
    bench.write(SBADDRESS0, 0x8000_0010);
    assert!(rt; bench.bus_step());
    assert!(rt; !bench.bus_step());
    assert_eq!(rt; bench.read(SBDATA0), 0x8000_0010);
}

#[test]
fn starts_again_at_each_word_of_abstractauto(rt: HostRuntime) {
    // The address of a word, its bit, and whether it is read or written.
    for (address, bit) in [
        (0x04, 0),
        (0x05, 1),
        (0x20, 16),
        (0x21, 17),
        (0x22, 18),
        (0x23, 19),
    ] {
        for reads in [false, true] {
            let mut bench = Bench::new(rt.alloc(), Start::Halted).expect(&rt, "the smallest RAM");
            bench.write(DMCONTROL, 1);
            bench.write(PROGBUF0, EBREAK);
            bench.write(COMMAND, 0x0004_0000);
            bench.run();
            bench.write(ABSTRACTAUTO, 1 << bit);
            let op = if reads {
                DmiOp::Read(address)
            } else {
                DmiOp::Write(address, EBREAK)
            };
            let performed = bench.perform(op);
            assert!(rt; performed.points.is_empty());
            assert_eq!(rt; bench.read(ABSTRACTCS), 0x0400_1002);
            bench.run();
            assert_eq!(rt; bench.read(ABSTRACTCS), 0x0400_0002);
        }
    }
}
