//! How real connections are opened, and what is said of that on standard error.

use std::io::ErrorKind;
use std::net::{Net, OpenListener, OpenStream, TcpListener, TcpStream};
use std::time::{Clock, Duration};
use std::{io, thread};

/// Where a connection to itself listens: a free port that the system picks.
const LOOP_BACK: &str = "127.0.0.1:0";

/// How often it is tried to connect where nothing listens.
const TRIES: u32 = 50;

/// The milliseconds between two tries: all tries together last for 5 seconds.
const PAUSE_MILLIS: u64 = 100;

/// A stream that sends each piece at once.
fn ready<S: OpenStream + Drop>(stream: S) -> io::Result<S> {
    stream.set_nodelay(true)?;
    Ok(stream)
}

/// Says why no connection was opened. What standard error does not take is lost.
fn say_why<R: Eprint>(runtime: &R, asked: &str, at: &str, error: &io::Error) {
    let _ = match error.kind() {
        ErrorKind::InvalidInput => eprintln!(runtime;
            "cannot {asked} {at}: an address is a host and a port, as 127.0.0.1:9824"
        ),
        ErrorKind::ConnectionRefused => eprintln!(runtime;
            "cannot {asked} {at}: nothing listens there"
        ),
        ErrorKind::AddrInUse => eprintln!(runtime; "cannot {asked} {at}: the port is in use"),
        ErrorKind::AddrNotAvailable => eprintln!(runtime;
            "cannot {asked} {at}: the address is none of this machine's"
        ),
        _ => eprintln!(runtime; "cannot {asked} {at}: {error}"),
    };
}

/// Connects, and tries again for a while where the other side refuses since nothing listens yet.
fn connect_late<R: Net + Eprint + Clock>(runtime: &R, at: &str) -> io::Result<R::Stream> {
    for tried in 0..TRIES {
        match TcpStream::connect(runtime, at) {
            Err(error) if error.kind() == ErrorKind::ConnectionRefused => {
                if tried == 0 {
                    let _ = eprintln!(runtime; "nothing listens at {at} yet: trying for 5 seconds");
                }
                thread::sleep(runtime, Duration::from_millis(PAUSE_MILLIS));
            }
            opened => return ready(opened?),
        }
    }
    ready(TcpStream::connect(runtime, at)?)
}

/// Connects to this address.
pub fn connect_to<R: Net + Eprint + Clock>(runtime: &R, at: &str) -> io::Result<R::Stream> {
    connect_late(runtime, at).inspect_err(|error| say_why(runtime, "connect to", at, error))
}

/// Says where it listens, which is the real port where port 0 was asked, and who came.
fn accept_first<R: Net + Eprint>(runtime: &R, at: &str) -> io::Result<R::Stream> {
    let listener = TcpListener::bind(runtime, at)?;
    let _ = eprintln!(runtime; "listening at {}", listener.local_addr()?);
    let (stream, client) = listener.accept()?;
    let _ = eprintln!(runtime; "accepted {client}");
    ready(stream)
}

/// Listens at this address, and takes the first client.
pub fn accept_at<R: Net + Eprint>(runtime: &R, at: &str) -> io::Result<R::Stream> {
    accept_first(runtime, at).inspect_err(|error| say_why(runtime, "listen at", at, error))
}

/// Both ends of a connection to itself. The listener's queue takes the connection, so that one thread opens both.
pub fn join_ends<R: Net>(runtime: &R) -> io::Result<(R::Stream, R::Stream)> {
    let listener = TcpListener::bind(runtime, LOOP_BACK)?;
    let near = TcpStream::connect(runtime, listener.local_addr()?)?;
    let (far, _) = listener.accept()?;
    Ok((ready(near)?, ready(far)?))
}
