use super::scripts::parts;
use script_lang::{parse, parse_soft, print_soft};
use std::alloc::{AllocError, Global};
use std::test::Fail;

/// Texts and what their scripts print as, with a bar between them and a semicolon after each pair but the last.
const SPELLINGS: &str = "# nothing\n|;\
soft 0x80000008|soft 0x0000000080000008\n;\
unsoft 2147483652 # x|unsoft 0x0000000080000004\n;\
soft 0x80000000\nhalt\nunsoft 0x80000000|soft 0x0000000080000000\nhalt\nunsoft 0x0000000080000000\n;\
soft 0xfffffffffffffffc|soft 0xfffffffffffffffc\n;\
step\nreg pc 0x80000008\nebreak on|step 1\nreg pc 0x0000000080000008\nebreak on\n";

/// Texts that are refused, in the same form, with the line and the fault's number.
const FAULTS: &str = "SOFT 0x80000000|1 2;\
idcode\nsofts 0x80000000|2 2;\
soft|1 3;\
unsoft # 0x80000000|1 3;\
soft 0x80000000 1|1 4;\
unsoft 0x80000000 0x80000004|1 4;\
soft here|1 5;\
unsoft x5|1 5;\
soft 0x80000001|1 6;\
soft 0x80000002|1 6;\
unsoft 0x80000003|1 6;\
soft 0|1 6;\
unsoft 0x7ffffffc|1 6;\
soft 18446744073709551616|1 6;\
soft 0x80000001 5|1 6;\
hart 1024|1 6";

/// What a text's script prints as, and again when that is read.
fn spelled(alloc: Global, text: &[u8]) -> Result<(Vec<u8>, Vec<u8>), Fail> {
    let once = print_soft(alloc, &parse_soft(alloc, text)?)?;
    let again = print_soft(alloc, &parse_soft(alloc, once.as_slice())?)?;
    Ok((once, again))
}

/// The line and the fault's number of a text that is refused.
fn outcome(alloc: Global, text: &[u8]) -> Result<String, AllocError> {
    match parse_soft(alloc, text) {
        Ok(_) => String::from_str(alloc, "read"),
        Err(error) => {
            let line = error.line;
            let number = error.fault.number();
            format!(in alloc; "{line} {number}")
        }
    }
}

#[test]
fn reads_prints_and_refuses(rt: HostRuntime) -> Result<(), Fail> {
    for row in SPELLINGS.split(';') {
        let (text, wanted) = parts(row);
        let (once, again) = spelled(rt.alloc(), text.as_bytes())?;
        assert!(rt;
            once.as_slice() == wanted.as_bytes() && again.as_slice() == wanted.as_bytes(),
            "of {text:?}"
        );
    }
    for row in FAULTS.split(';') {
        let (text, wanted) = parts(row);
        let outcome = outcome(rt.alloc(), text.as_bytes())?;
        assert!(rt; outcome.as_str() == wanted, "{outcome} of {text:?}");
    }
    Ok(())
}

// Without software breakpoints their words are unknown.
#[test]
fn other_scripts_have_none(rt: HostRuntime) -> Result<(), Fail> {
    for text in "soft 0x80000000|unsoft 0x80000000".split('|') {
        let refused = parse(rt.alloc(), text.as_bytes()).err();
        assert_eq!(rt;
            refused.map(|error| error.fault.number()),
            Some(2),
            "{text}"
        );
    }
    Ok(())
}
