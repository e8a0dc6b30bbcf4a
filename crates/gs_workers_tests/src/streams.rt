//! What a connection gets before it is served.
use gs_gates::patience;
use gs_test_servers::both_ends;
use gs_workers::limit_waits;
use std::io;
use std::net::{Net, TcpListener, TcpStream};
use std::test::*;
use std::time::Duration;

/// Whether a connection sends at once, and waits for a second at each read of the system and for 30 seconds
/// at each write.
fn is_limited(stream: &TcpStream) -> io::Result<bool> {
    let may_read = stream.read_timeout()?;
    let may_write = stream.write_timeout()?;
    Ok(
        stream.nodelay()?
            && may_read == Some(Duration::from_secs(1))
            && may_write == Some(Duration::from_secs(30)),
    )
}

/// Whether this holds of a connection that was accepted and given its limits.
fn has_limits<N: Net<Listener = TcpListener, Stream = TcpStream>>(rt: &N) -> bool {
    let Ok((stream, client)) = both_ends(rt) else {
        return false;
    };
    let is_given = limit_waits(&stream, patience()).is_ok();
    let right = is_given && matches!(is_limited(&stream), Ok(true));
    drop(client);
    right
}

#[test]
fn a_connection_gets_its_limits(rt: HostRuntime) -> Result<(), Fail> {
    assert!(rt; has_limits(&rt));
    Ok(())
}
