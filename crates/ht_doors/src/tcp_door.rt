ghost use Rattle.std.specs.Prelude.{◌≡◌, ◌≤◌, None};
ghost use Rattle.ht_outside.specs.Causes.{Rose};

use crate::{Door, TcpLink};
use ht_outside::Failed;
use std::io;
use std::io::ErrorKind;
use std::net::{Ipv4Addr, Net, SocketAddr, TcpListener, TcpStream};
use std::time::Duration;

// How often an accept is tried.
const TRIES: u32 = 64;

/// A port of this machine, on its loopback address. It tells no links. Before it listens each call
/// that takes a link fails, and so does `fork`.
///
/// A client that goes away before its link is taken is no fault: the next one is taken, at up to 64
/// trials. Links send what is written without delay. A link that is handed back ends: nothing more is
/// sent, and a rest of what its client sends is read, up to 2 MiB and for up to 32 seconds, so that
/// the client gets what was sent before.
#[derive(Drop)]
pub struct TcpDoor<'a, R: Net<Listener = TcpListener, Stream = TcpStream>> {
    /// For how many milliseconds, from 1 on, a read of a link waits for bytes before it fails.
    pub read_timeout: u32,
    /// For how many milliseconds, from 1 on, a write of a link waits till some of it is taken before
    /// it fails.
    pub write_timeout: u32,
    net: &'a R,
    listener: Option<TcpListener>,
    links: u64,
    faults: u64,
}

impl<'a, R: Net<Listener = TcpListener, Stream = TcpStream>> TcpDoor<'a, R> {
    /// A door whose links wait for 30 seconds.
    pub fn new(net: &'a R) -> TcpDoor<'a, R>
        ensures counts { (result.links ≡ 0) × (result.faults ≡ 0) }
        ensures timeouts { (result.read_timeout ≡ 30000) × (result.write_timeout ≡ 30000) }
    {
        TcpDoor {
            read_timeout: 30_000,
            write_timeout: 30_000,
            net,
            listener: None,
            links: 0,
            faults: 0,
        }
    }

    /// The address at which it listens. At port 0 of `listen` the system gives a port.
    pub fn address(&self) -> Option<SocketAddr> {
        match &self.listener {
            Some(listener) => listener.local_addr().ok(),
            None => None,
        }
    }

    // Counts a fault.
    fn fail(&mut self) -> Failed
        ensures later { self.old.faults ≤ self.new.faults }
        ensures rose { Rose self.old.faults self.new.faults }
        ensures same { self.new.links ≡ self.old.links }
    {
        self.faults = self.faults.saturating_add(1);
        Failed
    }
}

impl<'a, R: Net<Listener = TcpListener, Stream = TcpStream>> Door for TcpDoor<'a, R> {
    type L = TcpLink;

    ghost door_state = { λ d. record { links = d.links; faults = d.faults; back = None } };

    fn listen(&mut self, port: u16) -> Result<(), Failed> {
        match TcpListener::bind(self.net, (Ipv4Addr::LOCALHOST, port)) {
            Ok(listener) => {
                self.listener = Some(listener);
                Ok(())
            }
            Err(_) => Err(self.fail()),
        }
    }

    fn fork(&mut self) -> Result<TcpDoor<'a, R>, Failed> {
        let Some(listener) = another(&self.listener) else {
            return Err(self.fail());
        };
        Ok(TcpDoor {
            read_timeout: self.read_timeout,
            write_timeout: self.write_timeout,
            net: self.net,
            listener: Some(listener),
            links: 0,
            faults: 0,
        })
    }

    fn accept(&mut self) -> Result<TcpLink, Failed> {
        match taken(&self.listener, self.read_timeout, self.write_timeout) {
            Some(link) => {
                self.links = self.links.saturating_add(1);
                Ok(link)
            }
            None => Err(self.fail()),
        }
    }

    fn leave(&mut self, link: TcpLink) -> Result<(), Failed> {
        let mut link = link;
        link.end();
        Ok(())
    }

    fn join(&mut self, fork: TcpDoor<'a, R>) {
        self.links = self.links.saturating_add(fork.links);
        self.faults = self.faults.saturating_add(fork.faults);
    }
}

fn another(listener: &Option<TcpListener>) -> Option<TcpListener> {
    match listener {
        Some(listener) => listener.try_clone().ok(),
        None => None,
    }
}

// The next link whose client is still there.
fn taken(listener: &Option<TcpListener>, read_timeout: u32, write_timeout: u32) -> Option<TcpLink> {
    let Some(listener) = listener else {
        return None;
    };
    for _ in 0..TRIES {
        match listener.accept() {
            Ok((stream, _)) => {
                if set_up(&stream, read_timeout, write_timeout).is_ok() {
                    return Some(TcpLink::new(stream));
                }
            }
            Err(error) if error.kind() == ErrorKind::ConnectionAborted => {}
            Err(_) => return None,
        }
    }
    None
}

fn set_up(stream: &TcpStream, read_timeout: u32, write_timeout: u32) -> io::Result<()> {
    stream.set_nodelay(true)?;
    stream.set_read_timeout(Some(patience(read_timeout)))?;
    stream.set_write_timeout(Some(patience(write_timeout)))
}

// A timeout of 0 would be refused.
fn patience(milliseconds: u32) -> Duration {
    Duration::from_millis(u64::from(milliseconds.max(1)))
}
