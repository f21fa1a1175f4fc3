//! A tracker over HTTP by the sockets of a search: it is asked, and told at the end that this peer has stopped.
use bt_post::{Sockets, is_address};
use bt_seek::Post;
use std::io;
use std::io::Read;
use std::net::{Ipv4Addr, SocketAddr, TcpListener};
use std::test::Fail;

/// Returns the five bytes that the next connection gives.
fn heard(listener: &TcpListener) -> io::Result<[u8; 5]> {
    let (stream, _) = listener.accept()?;
    let mut stream = stream;
    let mut bytes = [0; 5];
    stream.read_exact(&mut bytes)?;
    Ok(bytes)
}

/// Gives sockets some time to send.
fn go_on(sockets: &mut Sockets<'_, HostRuntime>) {
    let mut buffer = [0; 64];
    for _ in 0..4 {
        let _ = sockets.receive(&mut buffer);
        sockets.rest();
    }
}

/// A question whose answer never comes was sent, so the tracker is told at the end, by a connection of its own.
#[test]
fn told_at_the_end(rt: HostRuntime) -> Result<(), Fail> {
    let listener = TcpListener::bind(&rt, SocketAddr::from((Ipv4Addr::LOCALHOST, 0)))?;
    let mut sockets = Sockets::new(&rt, rt.alloc());
    sockets.add_page(listener.local_addr()?)?;
    sockets.ask(0, b"begin");
    go_on(&mut sockets);
    assert!(rt; heard(&listener)? == *b"begin");
    sockets.stop(0, b"ended");
    sockets.part();
    assert!(rt; heard(&listener)? == *b"ended");
    Ok(())
}

/// A host, and whether it is an address.
const HOSTS: &[(&'static str, bool)] = &[
    ("192.0.2.1", true),
    ("2001:db8::1", true),
    ("::", true),
    ("tracker.example", false),
    ("192.0.2", false),
    ("192.0.2.256", false),
    ("[2001:db8::1]", false),
    ("", false),
];

#[test]
fn hosts(rt: HostRuntime) {
    for (host, wanted) in HOSTS {
        assert!(rt; is_address(host) == *wanted, "{host:?}");
    }
}
