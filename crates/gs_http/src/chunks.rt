//! A chunk's size line.
ghost use Rattle.std.specs.Prelude.{◌≡◌, ◌==◌, length};
ghost use Rattle.gs_http.specs.Chunks.{chunk_size_of};

use httparse::{Status, parse_chunk_size};

/// Whether a size line that is so many bytes long is all of these.
fn is_whole_line(len: usize, line: &[u8]) -> bool
    ensures { result ≡ (len == length line.now) }
{
    line.len() == len
}

/// The size in bytes that a line writes, where these bytes are a size line with its CR LF, and nothing else.
pub fn read_chunk_size(line: &[u8]) -> Option<u64>
    ensures { result ≡ chunk_size_of line.now }
{
    match parse_chunk_size(line) {
        Ok(Status::Complete((len, size))) => {
            if is_whole_line(len, line) {
                Some(size)
            } else {
                None
            }
        }
        Ok(Status::Partial) => None,
        Err(_) => None,
    }
}
