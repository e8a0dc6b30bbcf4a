//! Where the head of a request ends.

/// What was seen of a head: it ends with the first empty line that follows another.
#[derive(Clone, Copy)]
pub(crate) struct Heading {
    /// Whether a byte of the line came, its end aside.
    is_in_line: bool,
    /// Whether a line came.
    has_line: bool,
    is_over: bool,
}

impl Heading {
    /// One that is awaited. Where what was handed out goes on behind a request, how far is not known, and
    /// no head is looked for.
    pub(crate) fn new(is_known: bool) -> Heading {
        Heading {
            is_in_line: false,
            has_line: false,
            is_over: !is_known,
        }
    }

    pub(crate) fn is_over(&self) -> bool {
        self.is_over
    }

    /// These bytes follow. Whether the head ends with the last of them.
    pub(crate) fn pass(&mut self, bytes: &[u8]) -> bool {
        for (at, byte) in bytes.iter().enumerate() {
            match *byte {
                b'\n' => {
                    if self.is_in_line {
                        self.has_line = true;
                        self.is_in_line = false;
                    } else if self.has_line {
                        self.is_over = true;
                        return at + 1 == bytes.len();
                    }
                }
                b'\r' => {}
                _ => self.is_in_line = true,
            }
        }
        false
    }
}
