ghost use Rattle.std.specs.Prelude.{◌≤◌, length};

use crate::LineCounts;
use jt_base::{Sink, SinkFault};
use std::prelude::*;

fn put_cut<K: Sink>(sink: &mut K, text: &[u8], cut: usize) -> Result<(), SinkFault>
    requires { cut ≤ length text.now }
{
    sink.put(&text[..cut])?;
    sink.put(&text[cut..])
}

#[test]
fn counts_lines_wherever_they_are_cut(rt: HostRuntime) {
    // A text, its lines and the errors among them.
    let table: [(&[u8], u64, u64); 10] = [
        (b"", 0, 0),
        (b"running", 0, 0),
        (b"\n", 1, 0),
        (b"\n\n\n", 3, 0),
        (b"error: no free slot", 0, 0),
        (b"error: no free slot\n", 1, 1),
        (b"hart 0\nerror: no hart 7\nhart 1\n", 3, 1),
        (b"error:no blank\nerror\nerror:\n", 3, 0),
        (b"an error: in mid-line\n error: behind a blank\n", 2, 0),
        (
            b"error: \nError: \nerrerror: \nerror: error: \nerror: ",
            4,
            2,
        ),
    ];
    for (text, lines, errors) in table {
        for cut in 0..=text.len() {
            let mut counts = LineCounts::new();
            assert_eq!(rt; put_cut(&mut counts, text, cut), Ok(()), "cut at {cut}");
            assert_eq!(rt;
                (counts.lines(), counts.errors(), counts.faults()),
                (lines, errors, 0),
                "cut at {cut} in a text of {lines} lines"
            );
        }
    }
}
