//! Waveforms, as docs/SNIFFER.md has them under "Waveforms".

use crate::streams::{AMPLE, dmi_scan, times, write_bits};
use jt_base::MemorySink;
use std::test::Fail;
use wire_sniff::{SniffEnd, draw_waves};

/// The variables of a waveform, as docs/SNIFFER.md names them, and all levels at the start.
const WAVE_START: &str = "$timescale 1 us $end\n$scope module jtag $end\n\
$var wire 1 ! tck $end\n$var wire 1 \" tms $end\n$var wire 1 # tdi $end\n\
$var wire 1 $ trst $end\n$var wire 1 % tdo $end\n$var reg 4 & tap_state $end\n\
$var event 1 ' dmi $end\n$var reg 3 ( dmi_kind $end\n$var reg 7 ) dmi_address $end\n\
$var reg 32 * dmi_value $end\n$upscope $end\n$enddefinitions $end\n\
#0\n0!\n0\"\n0#\n0$\nx%\nb0000 &\n";

#[test]
fn a_waveform_has_every_level(rt: HostRuntime) -> Result<(), Fail> {
    let alloc = rt.alloc();
    // no edge; TDO is asked; a rise into Run-Test/Idle; a fall with TMS and TDI 1; TRST
    let signs = "#1\n0!\n0\"\n0#\n0$\nx%\nb0000 &\n\
#2\n0!\n0\"\n0#\n0$\n1%\nb0000 &\n\
#3\n1!\n0\"\n0#\n0$\n1%\nb0001 &\n\
#4\n0!\n1\"\n1#\n0$\nx%\nb0001 &\n\
#5\n0!\n1\"\n1#\n1$\nx%\nb0000 &\n";
    let wanted = format!(in alloc; "{WAVE_START}{signs}")?;
    let mut out = MemorySink::new(alloc, AMPLE, Vec::new(alloc))?;
    assert_eq!(rt; draw_waves(b"0R43t", b"1", &mut out), SniffEnd::Clean);
    assert_eq!(rt; out.bytes(), wanted.as_bytes());
    Ok(())
}

/// The bytes of the waveform of a dmi scan.
const WAVE_MOST: usize = 16_384;

#[test]
fn a_waveform_has_each_operation_as_its_scan_ends(rt: HostRuntime) -> Result<(), Fail> {
    let alloc = rt.alloc();
    let bits = write_bits(alloc)?;
    let stream = dmi_scan(alloc, &bits)?;
    let answers = times(alloc, b"0", 41)?;
    let mut out = MemorySink::new(alloc, WAVE_MOST, Vec::new(alloc))?;
    assert_eq!(rt; draw_waves(&stream, &answers, &mut out), SniffEnd::Clean);
    // the operation comes with the fall before the last rise
    let time = stream.len();
    let end = format!(in alloc;
        "1'\nb010 (\nb0010000 )\nb00000000000000000000000000000001 *\n#{time}\n1!\n0\"\n0#\n0$\nx%\nb0001 &\n"
    )?;
    assert!(rt; out.bytes().ends_with(end.as_bytes()));
    Ok(())
}

#[test]
fn a_waveform_has_the_ends_of_the_lines(rt: HostRuntime) -> Result<(), Fail> {
    let alloc = rt.alloc();
    let mut out = MemorySink::new(alloc, 0, Vec::new(alloc))?;
    assert_eq!(rt;
        draw_waves(b"04x", b"", &mut out),
        SniffEnd::BadSign(2, b'x')
    );
    assert_eq!(rt; draw_waves(b"0", b"2", &mut out), SniffEnd::BadAnswer(b'2'));
    let end = SniffEnd::Count { asked: 1, given: 0 };
    assert_eq!(rt; draw_waves(b"R", b"", &mut out), end);
    assert!(rt; out.bytes().is_empty());
    assert_eq!(rt; draw_waves(b"04", b"", &mut out), SniffEnd::Sink);
    Ok(())
}
