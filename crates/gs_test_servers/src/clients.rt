//! What clients say, and what they hear.
use std::alloc::{AllocError, Global};
use std::io;
use std::io::Write;
use std::net::{Net, SocketAddr, TcpListener, TcpStream};
use std::time::Duration;

/// How long a client waits for a reply, before its test fails.
const CLIENT_SECONDS: u64 = 20;

/// A connection that gives up where a reply does not come.
pub fn connected<N: Net<Stream = TcpStream>>(rt: &N, addr: SocketAddr) -> io::Result<TcpStream> {
    let stream = TcpStream::connect(rt, addr)?;
    let patience = Some(Duration::from_secs(CLIENT_SECONDS));
    stream.set_nodelay(true)?;
    stream.set_read_timeout(patience)?;
    stream.set_write_timeout(patience)?;
    Ok(stream)
}

/// Both ends of a connection, the client's last.
pub fn both_ends<R: Net<Listener = TcpListener, Stream = TcpStream>>(
    rt: &R,
) -> io::Result<(TcpStream, TcpStream)> {
    let listener = TcpListener::bind(rt, "127.0.0.1:0")?;
    let client = connected(rt, listener.local_addr()?)?;
    let (stream, _) = listener.accept()?;
    Ok((stream, client))
}

/// Sends bytes of a request.
pub fn say(stream: &TcpStream, bytes: &[u8]) -> io::Result<()> {
    let mut end = stream;
    end.write_all(bytes)
}

/// What is said to this request, to the end of its connection.
pub fn ask(alloc: Global, stream: TcpStream, request: &str) -> io::Result<String> {
    say(&stream, request.as_bytes())?;
    io::read_to_string(alloc, &stream)
}

/// A GET of a graph, whose reply closes.
pub fn get(alloc: Global, name: &str) -> Result<String, AllocError> {
    format!(in alloc; "GET /graphs/{name} HTTP/1.1\r\nHost: a\r\nConnection: close\r\n\r\n")
}

/// A PUT of a graph, whose reply closes.
pub fn put(alloc: Global, name: &str, body: &str) -> Result<String, AllocError> {
    let length = body.len();
    format!(in alloc;
        "PUT /graphs/{name} HTTP/1.1\r\nHost: a\r\nConnection: close\r\nContent-Type: application/n-triples\r\nContent-Length: {length}\r\n\r\n{body}"
    )
}

/// Whether a client that asked for a graph is told that it is not there.
pub fn hears_none(alloc: Global, stream: &TcpStream) -> io::Result<bool> {
    let reply = io::read_to_string(alloc, stream)?;
    Ok(reply.as_str().starts_with("HTTP/1.1 404 "))
}

/// Whether a graph is not there.
pub fn is_missing(alloc: Global, stream: TcpStream, name: &str) -> io::Result<bool> {
    let request = get(alloc, name)?;
    say(&stream, request.as_bytes())?;
    hears_none(alloc, &stream)
}

/// Whether a client is told that its graph was made.
pub fn hears_made(alloc: Global, stream: &TcpStream) -> io::Result<bool> {
    let reply = io::read_to_string(alloc, stream)?;
    Ok(reply.as_str().starts_with("HTTP/1.1 201 "))
}
