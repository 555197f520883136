use super::*;
use debug_model::{Command, RegName};
use std::test::Fail;

/// For each seed the first words of its image, and where the first block breaks and which register it reads. A script in Python reckoned them
/// from SplitMix64 as it is published, and from the encodings of the manual.
const MADE: [(u64, [u32; 6], u64, u16); 3] = [
    (
        0,
        [
            0x0309_0933,
            0x66a7_0513,
            0x0257_0533,
            0x0a88_8313,
            0x0266_84b3,
            0x0099_c3b3,
        ],
        0x8000_0784,
        0x1012,
    ),
    (
        1,
        [
            0x00e3_88b3,
            0x02a9_88b3,
            0x0103_c533,
            0x0333_8733,
            0x0063_0533,
            0x3ff5_0393,
        ],
        0x8000_0298,
        0x1013,
    ),
    (
        u64::MAX,
        [
            0x1775_0893,
            0x0105_83b3,
            0x0073_8333,
            0x0107_43b3,
            0x00c2_c733,
            0x0296_8833,
        ],
        0x8000_0528,
        0x100c,
    ),
];

/// The word of `jal x0, -4000`.
const LAST_WORD: u32 = 0x860f_f06f;

#[test]
fn images_and_scripts_are_those_that_python_makes(rt: HostRuntime) -> Result<(), Fail> {
    for (seed, words, place, register) in MADE {
        let (image, script) = generate(rt.alloc(), seed)?;
        assert_eq!(rt; image.len(), 4004);
        for (at, word) in words.iter().enumerate() {
            assert_eq!(rt; &image[4 * at..4 * at + 4], word.to_le_bytes().as_slice());
        }
        assert_eq!(rt; &image[4000..], LAST_WORD.to_le_bytes().as_slice());
        assert_eq!(rt; script.commands().len(), 601);
        assert_eq!(rt;
            &script.commands()[..7],
            [
                Command::Halt,
                Command::Break(place),
                Command::Resume,
                Command::Wait(1000),
                Command::Step(1),
                Command::Reg(RegName(register)),
                Command::Clear(0),
            ]
            .as_slice()
        );
    }
    Ok(())
}
