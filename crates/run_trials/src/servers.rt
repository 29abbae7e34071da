// A server at the other end of a connection, in a thread of its own.
use std::io::{Read, Write};
use std::net::{IpAddr, Ipv4Addr, SocketAddr, TcpListener, TcpStream};
use std::rt::HostRuntime;
use std::thread::{JoinHandle, Threads};
use std::{io, thread};

/// How many reads the server makes at most.
const READS: u32 = 1_000;

/// A free port of this machine, by which the system means the one that it chooses.
pub(crate) fn any_port() -> SocketAddr {
    SocketAddr::new(IpAddr::V4(Ipv4Addr::LOCALHOST), 0)
}

/// A thread that reads one connection to its end, answers `pong` and closes it.
pub(crate) struct Server {
    at: SocketAddr,
    thread: JoinHandle<()>,
}

impl Server {
    /// A server at a free port of this machine.
    pub(crate) fn start<R: Threads>(rt: &R, host: &HostRuntime) -> io::Result<Server> {
        let listener = TcpListener::bind(host, any_port())?;
        let at = listener.local_addr()?;
        match thread::spawn(rt, move || serve(&listener)) {
            Ok(thread) => Ok(Server { at, thread }),
            Err(_) => Err(io::ErrorKind::OutOfMemory.into()),
        }
    }

    pub(crate) fn port(&self) -> u16 {
        self.at.port()
    }

    /// Waits until its thread has ended. Where nobody came to it, this connection does.
    pub(crate) fn join<R: Threads>(self, rt: &R, host: &HostRuntime) {
        let Server { at, thread } = self;
        let _ = TcpStream::connect(host, at);
        thread.join(rt);
    }
}

/// Serves the first that comes.
fn serve(listener: &TcpListener) {
    if let Ok((stream, _)) = listener.accept() {
        answer(stream);
    }
}

/// Reads to the end, and answers.
fn answer(stream: TcpStream) {
    let mut stream = stream;
    let mut taken = [0u8; 64];
    for _ in 0..READS {
        match stream.read(&mut taken) {
            Ok(0) => {
                let _ = stream.write_all(b"pong");
                return;
            }
            Ok(_) => {}
            Err(_) => return,
        }
    }
}
