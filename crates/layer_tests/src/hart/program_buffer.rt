use super::{FIRST, ram_with, read, write};
use hart_debug::{DebugDid, DebugHart, RanWord, Start};
use rv_mem::Ram;
use rv_model::Size;

/// Where the words read and write: what x7 holds.
const DATA: u64 = 0x8000_0100;

/// What stands there.
const STORED: u64 = 0x1122_3344_5566_7788;

/// `tdata1` of a breakpoint: what x28 holds.
const BREAK: u64 = 0x6800_0000_0000_1044;

/// The debugger's numbers of all registers.
const NUMBERS: [u16; 18] = [
    0x300, 0x305, 0x340, 0x341, 0x342, 0x343, 0x7a0, 0x7a1, 0x7a2, 0x7b0, 0x7b1, 0x1001, 0x1005,
    0x1006, 0x1007, 0x101c, 0x101d, 0x101f,
];

/// Hart 1, halted, with numbers in x6, x7, x28 and x29 and in its registers.
fn halted() -> DebugHart {
    let mut hart = DebugHart::new(1, Start::Halted);
    let _ = write(&mut hart, 0x1005, 0x55);
    let _ = write(&mut hart, 0x1006, 5);
    let _ = write(&mut hart, 0x1007, DATA);
    let _ = write(&mut hart, 0x101c, BREAK);
    let _ = write(&mut hart, 0x101d, DATA + 1);
    let _ = write(&mut hart, 0x305, 0x8000_1000);
    let _ = write(&mut hart, 0x341, 0x8000_2000);
    let _ = write(&mut hart, 0x342, 0x77);
    let _ = write(&mut hart, 0x343, 0x66);
    let _ = write(&mut hart, 0x300, 0x8);
    hart
}

/// One word; an exception where the hart runs.
fn run(hart: &mut DebugHart, word: u32, ram: &mut Ram) -> RanWord {
    if hart.is_halted() {
        hart.debug_exec(word, ram)
    } else {
        RanWord {
            did: DebugDid::Exception,
            accessed: false,
        }
    }
}

#[test]
fn words_take_effect_where_pc_stays(rt: HostRuntime) {
    // The word, whether it is an access; a register that changes and what it holds then; what memory holds then.
    let cases = [
        (0x1234_52b7, false, 0x1005, 0x1234_5000, STORED),
        (0x0033_0293, false, 0x1005, 8, STORED),
        (0x0043_1293, false, 0x1005, 80, STORED),
        (0x0063_02b3, false, 0x1005, 10, STORED),
        (0x0263_02b3, false, 0x1005, 25, STORED),
        (0x0063_02bb, false, 0x1005, 10, STORED),
        (0x0003_b283, true, 0x1005, STORED, STORED),
        (0x0073_c283, true, 0x1005, 0x11, STORED),
        (0x0063_b023, true, 0x1005, 0x55, 5),
        (0x0063_b2af, true, 0x1005, STORED, STORED + 5),
        (0x0000_000f, false, 0x1005, 0x55, STORED),
        (0x0000_100f, false, 0x1005, 0x55, STORED),
        (0x1050_0073, false, 0x1005, 0x55, STORED),
        // csrrs x5, mhartid, x0; csrrs x5, dcsr, x0; csrrs x5, tdata1, x0
        (0xf140_22f3, false, 0x1005, 1, STORED),
        (0x7b00_22f3, false, 0x1005, 0x4000_0143, STORED),
        (0x7a10_22f3, false, 0x1005, 0xf800_0000_0000_0000, STORED),
        // csrrw x0, dcsr, x6; csrrsi x0, dcsr, 4
        (0x7b03_1073, false, 0x7b0, 0x4000_0147, STORED),
        (0x7b02_6073, false, 0x7b0, 0x4000_0147, STORED),
        // csrrw x0, dpc, x29; csrrw x0, tdata1, x28; csrrw x0, mscratch, x6
        (0x7b1e_9073, false, 0x7b1, DATA, STORED),
        (0x7a1e_1073, false, 0x7a1, BREAK, STORED),
        (0x3403_1073, false, 0x340, 5, STORED),
        // csrrci x0, mstatus, 8
        (0x3004_7073, false, 0x300, 0x1800, STORED),
    ];
    for (word, accessed, regno, value, stored) in cases {
        let mut ram = ram_with(rt.alloc(), 0).expect(&rt, "the smallest RAM");
        let _ = ram.store(DATA, Size::B8, STORED);
        let before = halted();
        let mut hart = halted();
        let ran = RanWord {
            did: DebugDid::Next,
            accessed,
        };
        assert_eq!(rt; run(&mut hart, word, &mut ram), ran);
        for number in NUMBERS {
            let expected = if number == regno {
                Some(value)
            } else {
                read(&before, number)
            };
            assert_eq!(rt; read(&hart, number), expected);
        }
        assert_eq!(rt; ram.load(DATA, Size::B8), Ok(stored));
    }
}

#[test]
fn exceptions_change_nothing(rt: HostRuntime) {
    // The word, whether it is an access, and what became of it.
    let cases = [
        (0x0010_0073, false, DebugDid::Ebreak),
        // auipc, jal, jalr, beq, bne, blt, bge, bltu, bgeu
        (0x0000_0297, false, DebugDid::Exception),
        (0x0000_02ef, false, DebugDid::Exception),
        (0x0003_82e7, false, DebugDid::Exception),
        (0x0062_8063, false, DebugDid::Exception),
        (0x0062_9063, false, DebugDid::Exception),
        (0x0062_c063, false, DebugDid::Exception),
        (0x0062_d063, false, DebugDid::Exception),
        (0x0062_e063, false, DebugDid::Exception),
        (0x0062_f063, false, DebugDid::Exception),
        // ecall, mret
        (0x0000_0073, false, DebugDid::Exception),
        (0x3020_0073, false, DebugDid::Exception),
        // lr.w, lr.d, sc.w, sc.d
        (0x1003_a2af, false, DebugDid::Exception),
        (0x1003_b2af, false, DebugDid::Exception),
        (0x1863_a2af, false, DebugDid::Exception),
        (0x1863_b2af, false, DebugDid::Exception),
        // No instruction; csrrs of a register that does not exist; csrrw of mhartid
        (0x0000_0000, false, DebugDid::Exception),
        (0x7b20_22f3, false, DebugDid::Exception),
        (0xf143_12f3, false, DebugDid::Exception),
        // ld, sd and amoadd.d at x29, which is odd; ld, sd and amoadd.d at address 0
        (0x000e_b283, true, DebugDid::Exception),
        (0x006e_b023, true, DebugDid::Exception),
        (0x006e_b2af, true, DebugDid::Exception),
        (0x0000_3283, true, DebugDid::Exception),
        (0x0060_3023, true, DebugDid::Exception),
        (0x0060_32af, true, DebugDid::Exception),
    ];
    for (word, accessed, did) in cases {
        let mut ram = ram_with(rt.alloc(), 0).expect(&rt, "the smallest RAM");
        let _ = ram.store(DATA, Size::B8, STORED);
        ram.reserve(1, DATA);
        let before = halted();
        let mut hart = halted();
        assert_eq!(rt; run(&mut hart, word, &mut ram), RanWord { did, accessed });
        assert_eq!(rt; *hart.hart(), *before.hart());
        for number in NUMBERS {
            assert_eq!(rt; read(&hart, number), read(&before, number));
        }
        assert_eq!(rt; ram.load(DATA, Size::B8), Ok(STORED));
        assert_eq!(rt; ram.load(FIRST, Size::B8), Ok(0));
        assert!(rt; ram.reserved(1, DATA, Size::B8));
    }
}

#[test]
fn only_a_store_clears_reservations(rt: HostRuntime) {
    // sd, amoadd.d; ld, addi
    for (word, kept) in [
        (0x0063_b023, false),
        (0x0063_b2af, false),
        (0x0003_b283, true),
        (0x0033_0293, true),
    ] {
        let mut ram = ram_with(rt.alloc(), 0).expect(&rt, "the smallest RAM");
        ram.reserve(3, DATA);
        let _ = run(&mut halted(), word, &mut ram);
        assert_eq!(rt; ram.reserved(3, DATA, Size::B8), kept);
    }
}
