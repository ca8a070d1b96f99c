use crate::echoing::echo;
use ht_doors::{Door, TcpDoor, TcpLink};
use ht_outside::{Failed, Sink, Source};
use std::alloc::Global;
use std::io;
use std::io::{Read, Write};
use std::net::{Net, Shutdown, SocketAddr, TcpListener, TcpStream};
use std::test::Fail;

// A client that sends this, and nothing behind it.
fn client<R: Net<Listener = TcpListener, Stream = TcpStream>>(
    net: &R,
    address: SocketAddr,
    sends: &[u8],
) -> io::Result<TcpStream> {
    let mut stream = TcpStream::connect(net, address)?;
    stream.write_all(sends)?;
    stream.shutdown(Shutdown::Write)?;
    Ok(stream)
}

// Whether a client that sends this gets its first eight bytes back, and then the end.
fn is_served<D: Door + Send, R: Net<Listener = TcpListener, Stream = TcpStream>>(
    door: &mut D,
    net: &R,
    alloc: Global,
    address: SocketAddr,
    sends: &[u8],
) -> io::Result<bool> {
    let mut stream = client(net, address, sends)?;
    let served = echo(door);
    let mut got = Vec::new(alloc);
    stream.read_to_end(&mut got)?;
    let want = &sends[..sends.len().min(8)];
    Ok(served.is_ok() && got.as_slice() == want)
}

// Writes much, until it fails.
fn is_ended(link: &mut TcpLink) -> bool {
    let piece = [0; 16_384];
    for _ in 0..4096 {
        if link.write(&piece).is_err() {
            return true;
        }
    }
    false
}

#[test]
fn a_port_is_a_door(rt: HostRuntime) -> Result<(), Fail> {
    let mut door = TcpDoor::new(&rt);
    assert_eq!(rt; echo(&mut door), Err(Failed), "it doesn't listen yet");
    assert_eq!(rt; door.listen(0), Ok(()));
    let Some(address) = door.address() else {
        return Err(Fail::new("it has no address"));
    };
    assert!(rt; is_served(&mut door, &rt, rt.alloc(), address, b"one")?);
    let mut fork = door.fork()?;
    assert!(rt; is_served(&mut fork, &rt, rt.alloc(), address, b"two")?);
    assert_eq!(rt; TcpDoor::new(&rt).listen(address.port()), Err(Failed));
    door.join(fork);
    assert!(rt;
        is_served(&mut door, &rt, rt.alloc(), address, &[b'x'; 40_000])?,
        "a rest was not read"
    );
    Ok(())
}

#[test]
fn a_link_over_tcp_fails_alone(rt: HostRuntime) -> Result<(), Fail> {
    let mut door = TcpDoor::new(&rt);
    door.read_timeout = 20;
    door.write_timeout = 20;
    door.listen(0)?;
    let Some(address) = door.address() else {
        return Err(Fail::new("it has no address"));
    };
    drop(client(&rt, address, b"half")?);
    let mut gone = door.accept()?;
    let mut piece = [0; 8];
    assert_eq!(rt; gone.read(&mut piece), Ok(4));
    assert_eq!(rt; gone.read(&mut piece), Ok(0));
    assert!(rt; is_ended(&mut gone), "whose client has gone");
    door.leave(gone)?;
    assert!(rt; is_served(&mut door, &rt, rt.alloc(), address, b"one")?);
    let silent: TcpStream = TcpStream::connect(&rt, address)?;
    let mut link = door.accept()?;
    assert_eq!(rt; link.read(&mut piece), Err(Failed));
    assert!(rt; is_ended(&mut link), "whose client reads nothing");
    door.leave(link)?;
    drop(silent);
    assert!(rt; is_served(&mut door, &rt, rt.alloc(), address, b"two")?);
    Ok(())
}
