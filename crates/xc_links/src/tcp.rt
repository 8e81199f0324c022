ghost use Rattle.std.specs.Prelude.{◌≡◌};
ghost use Rattle.std.specs.Io.{ReadsAtMost, WritesAtMost};
ghost use Rattle.xc_links.specs.Tcp.{untold, untold_links};

use crate::{Duplex, Links};
use std::io::{ErrorKind, Read, Write};
use std::marker::Model;
use std::net::{Net, Shutdown, TcpListener, TcpStream};
use std::time::{Clock, Duration};
use std::{io, thread};
use xc_edge::Failed;

// How many seconds a read or a write waits for the peer.
const PATIENCE: u64 = 10;

// How many milliseconds an accept waits between two looks, and how often it looks.
const BETWEEN: u64 = 20;

const LOOKS: u32 = 3_000;

// Reads once more where a signal came in between, as where the program was stopped and goes on.
fn read_again(stream: &mut TcpStream, into: &mut [u8]) -> io::Result<usize>
    ensures { ReadsAtMost result into.new }
{
    match stream.read(into) {
        Err(error) if error.kind() == ErrorKind::Interrupted => stream.read(into),
        other => other,
    }
}

// Writes once more where a signal came in between.
fn write_again(stream: &mut TcpStream, piece: &[u8]) -> io::Result<usize>
    ensures { WritesAtMost result piece.now }
{
    match stream.write(piece) {
        Err(error) if error.kind() == ErrorKind::Interrupted => stream.write(piece),
        other => other,
    }
}

/// A connection over TCP. It tells nothing.
#[derive(Drop)]
pub struct TcpLink {
    stream: TcpStream,
    faults: u64,
}

impl Model for TcpLink {
    ghost use Rattle.std.specs.Prelude.{ℕ};

    ghost Value = { ℕ };

    ghost view = { λ a. a.faults };
}

impl Duplex for TcpLink {
    ghost told = { untold };

    fn faults(&self) -> u64 {
        self.faults
    }

    fn read(&mut self, into: &mut [u8]) -> Result<usize, Failed> {
        match read_again(&mut self.stream, into) {
            Ok(count) => Ok(count),
            Err(_) => {
                self.faults = self.faults.saturating_add(1);
                Err(Failed)
            }
        }
    }

    fn write(&mut self, piece: &[u8]) -> Result<usize, Failed> {
        match write_again(&mut self.stream, piece) {
            Ok(0) | Err(_) => {
                self.faults = self.faults.saturating_add(1);
                Err(Failed)
            }
            Ok(count) => Ok(count),
        }
    }

    fn finish(&mut self) {
        let _shut = self.stream.shutdown(Shutdown::Write);
    }
}

/// Connections over TCP to a port of 127.0.0.1, which is bound at the first accept. It tells nothing.
#[derive(Drop)]
pub struct TcpLinks<R> {
    rt: R,
    port: u16,
    listener: Option<TcpListener>,
    faults: u64,
}

impl<R> Model for TcpLinks<R> {
    ghost use Rattle.std.specs.Prelude.{ℕ};

    ghost Value = { ℕ };

    ghost view = { λ a. a.faults };
}

impl<R: Net<Listener = TcpListener, Stream = TcpStream> + Clock + Drop> TcpLinks<R> {
    /// Nothing is bound yet.
    pub fn new(rt: R, port: u16) -> TcpLinks<R> {
        TcpLinks {
            rt,
            port,
            listener: None,
            faults: 0,
        }
    }
}

// Looks for a connection, so often at most.
fn look_for<R: Clock>(clock: &R, listener: &TcpListener) -> io::Result<TcpStream> {
    for _ in 0..LOOKS {
        match listener.accept() {
            Ok((stream, _)) => return Ok(stream),
            Err(error) if error.kind() == ErrorKind::WouldBlock => thread::sleep(
                clock,
                Duration::from_millis(BETWEEN),
            ),
            Err(error) => return Err(error),
        }
    }
    Err(io::Error::from(ErrorKind::TimedOut))
}

impl<R: Net<Listener = TcpListener, Stream = TcpStream> + Clock + Drop> TcpLinks<R> {
    // The listener, which is bound where there is none yet.
    fn listener(&mut self) -> io::Result<TcpListener>
        ensures { self.new ≡ self.old }
    {
        if let Some(listener) = self.listener.take() {
            return Ok(listener);
        }
        let listener = TcpListener::bind(&self.rt, ("127.0.0.1", self.port))?;
        listener.set_nonblocking(true)?;
        Ok(listener)
    }

    // The next connection, which waits for its peer so long at most.
    fn accepted(&mut self) -> io::Result<TcpLink>
        ensures { self.new ≡ self.old }
    {
        let listener = self.listener()?;
        let stream = look_for(&self.rt, &listener)?;
        self.listener = Some(listener);
        let patience = Duration::from_secs(PATIENCE);
        stream.set_read_timeout(Some(patience))?;
        stream.set_write_timeout(Some(patience))?;
        Ok(TcpLink { stream, faults: 0 })
    }
}

impl<R: Net<Listener = TcpListener, Stream = TcpStream> + Clock + Drop> Links for TcpLinks<R> {
    type Link = TcpLink;

    ghost told = { untold_links };

    fn faults(&self) -> u64 {
        self.faults
    }

    fn accept(&mut self) -> Result<TcpLink, Failed> {
        match self.accepted() {
            Ok(link) => Ok(link),
            Err(_) => {
                self.faults = self.faults.saturating_add(1);
                Err(Failed)
            }
        }
    }
}
