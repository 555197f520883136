use debug_model::Command;
use script_lang::{parse, print};
use std::alloc::{AllocError, Global};
use std::test::Fail;

/// Texts and what their scripts print as, with a bar between them and a semicolon after each pair but the last.
const SPELLINGS: &str = "|;\
# nothing\n\n \t\r\n|;\
\x20read 4 2147483648 # x|read 4 0x0000000080000000 1\n;\
idcode|idcode\n;\
hart 0x3ff|hart 1023\n;\
\tstate\t|state\n;\
halt\r\nresume\r\n|halt\nresume\n;\
step|step 1\n;\
step 1000#x|step 1000\n;\
wait|wait 64\n;\
regs|regs\n;\
reg x31|reg x31\n;\
reg pc 0x80000008|reg pc 0x0000000080000008\n;\
reg mhartid|reg mhartid\n;\
write 1 7 255 512|write 1 0x0000000000000007 0x00000000000000ff 512\n;\
write 8 0 0xffffffffffffffff|write 8 0x0000000000000000 0xffffffffffffffff 1\n;\
dump 0xffffffffffffffff 1|dump 0xffffffffffffffff 1\n;\
via progbuf\nvia bus|via progbuf\nvia bus\n;\
break 18446744073709551615|break 0xffffffffffffffff\n;\
watch load 0xAbCdEf|watch load 0x0000000000abcdef\n;\
watch store 0|watch store 0x0000000000000000\n;\
watch access 00000000000000000009|watch access 0x0000000000000009\n;\
count 16383|count 16383\n;\
clear 3|clear 3\n;\
slots|slots\n;\
ebreak on\nebreak off|ebreak on\nebreak off\n;\
end\n\n# é\u{1f980}\x00\n|end\n;\
read 8 0xfffffffffffffff0 2|read 8 0xfffffffffffffff0 2\n";

/// Texts that are refused, in the same form, with the line and the fault's number. In the last rows the first word at
/// fault from the left has its fault, and an extra word comes last.
const FAULTS: &str = "idcode\nid\x7fcode|2 1;\
é|1 1;\
zz \x00|1 1;\
zz\né|1 2;\
foo|1 2;\
IDCODE|1 2;\
idcode # é\nidcodes|2 2;\
\r\n\r\nreg sp\r\n|3 2;\
reg x32|1 2;\
reg x05|1 2;\
via jtag|1 2;\
watch exec 0|1 2;\
ebreak maybe|1 2;\
hart|1 3;\
reg|1 3;\
read 4|1 3;\
write 1 0 # 7|1 3;\
dump 0|1 3;\
watch load|1 3;\
clear|1 3;\
idcode 1|1 4;\
state\thalt|1 4;\
read 1 0 1 1|1 4;\
via bus bus|1 4;\
hart one|1 5;\
hart 0x|1 5;\
hart 0X1|1 5;\
hart +1|1 5;\
hart -1|1 5;\
hart 1_0|1 5;\
break 0x1ffffffffffffffff|1 5;\
break 0x00000000000000000|1 5;\
break 000000000000000000000|1 5;\
step five|1 5;\
break 18446744073709551616|1 6;\
break 99999999999999999999|1 6;\
hart 1024|1 6;\
step 0|1 6;\
step 1001|1 6;\
wait 0|1 6;\
wait 1001|1 6;\
state\nread 3 0x80000000|2 6;\
read 1 0 0|1 6;\
read 1 0 513|1 6;\
read 8 0xfffffffffffffff9|1 6;\
read 8 0xfffffffffffffff8 2|1 6;\
dump 0 0|1 6;\
dump 0 513|1 6;\
dump 0xffffffffffffffff 2|1 6;\
write 1 0 256|1 6;\
write 4 0 0x100000000|1 6;\
count 0|1 6;\
count 16384|1 6;\
clear 4|1 6;\
write 8 0xfffffffffffffff9 zz|1 6;\
write 8 0xfffffffffffffff8 zz 2|1 5;\
write 1 zz 256 7|1 5;\
write 1 0 256 zz|1 6;\
read 3|1 6;\
hart 1024 5|1 6";

/// Texts that are refused, in the same form, with what a reader is told.
const MESSAGES: &str = "é|line 1: a byte outside the comment is no ASCII text;\
halt\nstop|line 2: a word is no command, no register and no other word that may stand there;\
reg|line 1: the line ends where a word is wanted;\
halt now|line 1: a word follows the command's last;\
hart one|line 1: a word is no number where one is wanted;\
hart 1024|line 1: a number is out of its range";

/// The text and what is wanted of it.
pub(super) fn parts(row: &str) -> (&str, &str) {
    row.split_once('|').unwrap_or((row, ""))
}

/// What a text's script prints as, and again when that is read.
fn spelled(alloc: Global, text: &[u8]) -> Result<(Vec<u8>, Vec<u8>), Fail> {
    let once = print(alloc, &parse(alloc, text)?)?;
    let again = print(alloc, &parse(alloc, once.as_slice())?)?;
    Ok((once, again))
}

/// The line and the fault's number of a text that is refused, or how many commands a script has.
fn outcome(alloc: Global, text: &[u8]) -> Result<String, AllocError> {
    match parse(alloc, text) {
        Ok(script) => script.commands().len().to_string(alloc),
        Err(error) => {
            let line = error.line;
            let number = error.fault.number();
            format!(in alloc; "{line} {number}")
        }
    }
}

/// What a reader is told of a text that is refused.
fn message(alloc: Global, text: &[u8]) -> Result<String, AllocError> {
    match parse(alloc, text) {
        Ok(_) => Ok(String::new(alloc)),
        Err(error) => error.to_string(alloc),
    }
}

#[test]
fn reads_prints_and_refuses(rt: HostRuntime) -> Result<(), Fail> {
    for row in SPELLINGS.split(';') {
        let (text, wanted) = parts(row);
        let (once, again) = spelled(rt.alloc(), text.as_bytes())?;
        assert!(rt;
            once.as_slice() == wanted.as_bytes() && again.as_slice() == wanted.as_bytes(),
            "of {text:?}"
        );
    }
    for row in FAULTS.split(';') {
        let (text, wanted) = parts(row);
        let outcome = outcome(rt.alloc(), text.as_bytes())?;
        assert!(rt; outcome.as_str() == wanted, "{outcome} of {text:?}");
    }
    for row in MESSAGES.split(';') {
        let (text, wanted) = parts(row);
        let message = message(rt.alloc(), text.as_bytes())?;
        assert!(rt; message.as_str() == wanted, "{message} of {text:?}");
    }
    Ok(())
}

/// So many lines `end`, and then a last text.
fn ends(alloc: Global, count: usize, last: &[u8]) -> Result<Vec<u8>, AllocError> {
    let mut text = Vec::new(alloc);
    for _ in 0..count {
        text.extend_from_slice(b"end\n")?;
    }
    text.extend_from_slice(last)?;
    Ok(text)
}

/// The texts after a thousand lines with a command, and what comes of them.
const LAST_LINES: &str = "\n# more\n|1000;\
end|1001 7;\
# a comment\n\nfoo|1003 7;\
foo é|1001 1;\
end\né|1001 7";

#[test]
fn keeps_its_limits(rt: HostRuntime) -> Result<(), Fail> {
    for row in LAST_LINES.split(';') {
        let (last, wanted) = parts(row);
        let text = ends(rt.alloc(), 1000, last.as_bytes())?;
        let outcome = outcome(rt.alloc(), text.as_slice())?;
        assert!(rt; outcome.as_str() == wanted, "{outcome} of {last:?}");
    }
    assert!(rt; outcome(rt.alloc(), b"end # \x80\xff")?.as_str() == "1");
    assert!(rt; outcome(rt.alloc(), b"\xff")?.as_str() == "1 1");
    let script = parse(rt.alloc(), b"hart 1\nend")?;
    assert!(rt; script.commands() == [Command::Hart(1), Command::End].as_slice());
    let full = vec![in rt.alloc(); b'\n'; 1_048_576]?;
    let over = vec![in rt.alloc(); b'\n'; 1_048_577]?;
    assert!(rt; outcome(rt.alloc(), full.as_slice())?.as_str() == "0");
    assert!(rt; outcome(rt.alloc(), over.as_slice())?.as_str() == "0 7");
    assert!(rt;
        message(rt.alloc(), over.as_slice())?.as_str() == "there are more than 1048576 bytes"
    );
    let late = ends(rt.alloc(), 1000, b"end")?;
    assert!(rt;
        message(rt.alloc(), late.as_slice())?.as_str()
            == "line 1001: there are more than 1000 lines with words"
    );
    Ok(())
}
