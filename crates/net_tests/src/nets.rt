ghost use Rattle.std.specs.Prelude.{◌≡◌, ◌<◌, None, IfOk};

use debug_model::{End, Net, NetFault, Wire, WireFault};
use jtag_net::{MemoryNet, NetWire, TcpNet};
use std::io::{Read, Write};
use std::net::TcpListener;
use std::rt::HostRuntime;
use std::test::Fail;

fn memory(
    rt: &HostRuntime,
    input: &[u8],
    piece: usize,
    room: usize,
    fail_at: &[u32],
) -> Result<MemoryNet, Fail>
    requires { 0 < piece }
    ensures { IfOk result (λ n. n.opening ≡ None) }
{
    let alloc = rt.alloc();
    let input = input.to_vec(alloc)?;
    let fail_at = fail_at.to_vec(alloc)?;
    Ok(MemoryNet::new(alloc, input, piece, room, fail_at)?)
}

#[test]
#[tactic(auto, unfolding(debug_model::specs::Wire::are_open))]
fn wire_gives_input_in_any_pieces(rt: HostRuntime) -> Result<(), Fail> {
    for piece in [1, 2, 3, 256] {
        let mut net = memory(&rt, b"10110x", piece, 8, &[])?;
        net.accept(rt.alloc(), "here")?;
        let mut wire = NetWire::new(&mut net);
        let mut three = [0; 3];
        let mut two = [0; 2];
        wire.send(b"0R4")?;
        wire.recv(&mut three)?;
        wire.send(b"2R6")?;
        wire.recv(&mut two)?;
        assert_eq!(rt; (&three, &two), (b"101", b"10"), "pieces of {piece}");
        // a byte that is no answer ends the read: it is handed on, and `0` in the place of what did not come
        assert_eq!(rt;
            (wire.recv(&mut three), wire.faults()),
            (Err(WireFault::RecvFailed), 1),
            "pieces of {piece}"
        );
        assert_eq!(rt; &three, b"x00", "pieces of {piece}");
        assert_eq!(rt;
            (wire.recv(&mut two), wire.faults()),
            (Err(WireFault::Ended), 2),
            "pieces of {piece}"
        );
        assert_eq!(rt; (net.faults(), net.ends()), (0, 1), "pieces of {piece}");
        assert_eq!(rt; net.sent(), b"0R42R6".as_slice());
    }
    Ok(())
}

#[test]
#[tactic(auto, unfolding(debug_model::specs::Wire::are_open))]
fn memory_net_fails_where_listed_or_full(rt: HostRuntime) -> Result<(), Fail> {
    let alloc = rt.alloc();
    let mut deaf = memory(&rt, b"01", 1, 8, &[0])?;
    assert_eq!(rt;
        (deaf.accept(alloc, "here"), deaf.faults()),
        (Err(NetFault::Failed), 1)
    );
    // the room, the call that fails, what three sends and two takes answer, and what was put
    let sends = Err(WireFault::SendFailed);
    let takes = Err(WireFault::RecvFailed);
    let cases = [
        (8, 1, [sends, Ok(()), Ok(()), Ok(())], b"4".as_slice()),
        (8, 2, [Ok(()), takes, Ok(()), Ok(())], b"0R4"),
        (8, 3, [Ok(()), Ok(()), sends, Ok(())], b"0R"),
        (8, 4, [Ok(()), Ok(()), Ok(()), takes], b"0R4"),
        (1, 9, [sends, Ok(()), sends, Ok(())], b"0"),
    ];
    for (room, listed, wanted, put) in cases {
        let mut net = memory(&rt, b"01", 1, room, &[listed])?;
        net.connect(alloc, "there")?;
        let mut wire = NetWire::new(&mut net);
        let mut byte = [0];
        let outcomes = [
            wire.send(b"0R"),
            wire.recv(&mut byte),
            wire.send(b"4"),
            wire.recv(&mut byte),
        ];
        assert_eq!(rt; outcomes, wanted, "call {listed}");
        assert_eq!(rt; net.sent(), put, "call {listed}");
    }
    Ok(())
}

// Puts two bytes at each end, and takes them at the other.
fn both_ways<N: Net>(rt: &HostRuntime, net: &mut N) -> Result<([u8; 4], [u8; 4]), NetFault>
    requires { (N.state net.old).ties.opening ≡ None }
{
    let mut far = [0; 4];
    let mut near = [0; 4];
    net.join(rt.alloc())?;
    net.put(End::Near, b"R2")?;
    net.take(End::Far, &mut far)?;
    net.put(End::Far, b"10")?;
    net.take(End::Near, &mut near)?;
    Ok((far, near))
}

#[test]
fn joined_nets_carry_bytes_both_ways(rt: HostRuntime) -> Result<(), Fail> {
    let wanted = Ok((*b"R2\0\0", *b"10\0\0"));
    let mut tcp = TcpNet::new(&rt);
    assert_eq!(rt;
        (both_ways(&rt, &mut tcp), tcp.faults(), tcp.ends()),
        (wanted, 0, 0)
    );
    let mut whole = memory(&rt, b"unused", 4, 2, &[])?;
    assert_eq!(rt;
        (both_ways(&rt, &mut whole), whole.faults(), whole.ends()),
        (wanted, 0, 0)
    );
    for call in 0..5 {
        let mut failing = memory(&rt, b"", 4, 2, &[call])?;
        assert_eq!(rt;
            (both_ways(&rt, &mut failing), failing.faults()),
            (Err(NetFault::Failed), 1),
            "call {call}"
        );
    }
    Ok(())
}

// The peer's connection stays open, so that a second take would wait forever.
#[test]
fn silent_peer_that_is_no_chip_holds_nobody(rt: HostRuntime) -> Result<(), Fail> {
    let alloc = rt.alloc();
    let listener = TcpListener::bind(&rt, "127.0.0.1:0")?;
    let at = format!(in alloc; "{}", listener.local_addr()?)?;
    let mut net = TcpNet::new(&rt);
    net.connect(alloc, at.as_str())?;
    let mut peer = listener.accept()?.0;
    peer.write_all(b"1x")?;
    let mut wire = NetWire::new(&mut net);
    let mut answers = [0; 4];
    assert_eq!(rt;
        (wire.recv(&mut answers), wire.faults()),
        (Err(WireFault::RecvFailed), 1)
    );
    assert_eq!(rt; &answers, b"1x00");
    assert_eq!(rt; (net.faults(), net.ends()), (0, 0));
    drop(peer);
    Ok(())
}

#[test]
#[tactic(auto, unfolding(debug_model::specs::Wire::are_open))]
fn tcp_net_connects_and_sees_the_end(rt: HostRuntime) -> Result<(), Fail> {
    let alloc = rt.alloc();
    let listener = TcpListener::bind(&rt, "127.0.0.1:0")?;
    let at = format!(in alloc; "{}", listener.local_addr()?)?;
    let mut net = TcpNet::new(&rt);
    net.connect(alloc, at.as_str())?;
    let mut wire = NetWire::new(&mut net);
    let mut peer = listener.accept()?.0;
    let mut piece = [0; 4];
    wire.send(b"0R4")?;
    let count = peer.read(&mut piece)?;
    peer.write_all(b"1")?;
    drop(peer);
    let mut answer = [0];
    wire.recv(&mut answer)?;
    assert_eq!(rt; (count, &piece, &answer), (3, b"0R4\0", b"1"));
    assert_eq!(rt;
        (wire.recv(&mut answer), wire.faults()),
        (Err(WireFault::Ended), 1)
    );
    assert_eq!(rt; (net.faults(), net.ends()), (0, 1));
    drop(listener);
    let mut late = TcpNet::new(&rt);
    assert_eq!(rt;
        (late.connect(alloc, at.as_str()), late.faults()),
        (Err(NetFault::Failed), 1)
    );
    let mut nowhere = TcpNet::new(&rt);
    assert_eq!(rt;
        (nowhere.accept(alloc, "nowhere"), nowhere.faults()),
        (Err(NetFault::Failed), 1)
    );
    Ok(())
}
