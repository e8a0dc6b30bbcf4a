//! Lines that may be put together later.
ghost use Rattle.std.specs.Prelude.{◌≡◌, ◌+◌, ◌≤◌, ◌++◌, length, vec_len, vec_capacity, IfOk, IfSome};
ghost use Rattle.gs_texts.specs.Lines.{written};
ghost use Rattle.gs_texts.specs.Due.{AreThere, lines_in};

use crate::parts::{Parts, put_together};
use std::alloc::{AllocError, Global};
use std::marker::Model;

/// Lines of a read: their bytes, or those of some and room for the others, with what these are made of. A
/// contract sees the bytes of all.
#[derive(Debug, Drop)]
pub struct Lines {
    bytes: Vec<u8>,
    due: Option<Box<Parts>>,
}

impl Model for Lines {
    ghost use Rattle.std.specs.Prelude.{◌++◌};
    ghost use Rattle.gs_texts.specs.Lines.{Written, written_code, written};
    ghost use Rattle.gs_texts.specs.Due.{due_in, HasRoomForDue};

    ghost Value = { Written };

    ghost coded = { written_code };

    ghost view = { λ l. written (l.bytes.items ++ due_in l.due) };

    ghost invariant = { λ l. HasRoomForDue l.bytes l.due };
}

impl Lines {
    /// Lines whose bytes these are.
    pub fn of(bytes: Vec<u8>) -> Lines
        ensures { result ≡ written bytes.items }
    {
        Lines { bytes, due: None }
    }

    /// Lines that are put together later, for which there is room.
    pub(crate) fn later(room: Vec<u8>, parts: Parts) -> Result<Lines, AllocError>
        requires there { AreThere parts }
        requires room { vec_len room + length (lines_in parts) ≤ vec_capacity room }
        ensures { IfOk result (λ l. l ≡ written (room.items ++ lines_in parts)) }
    {
        let Ok(parts) = Box::new(*room.allocator(), parts) else {
            return Err(AllocError);
        };
        Ok(Lines {
            bytes: room,
            due: Some(parts),
        })
    }

    /// The bytes, where they are put together.
    pub fn bytes(&self) -> Option<&[u8]>
        ensures { IfSome result (λ bytes. bytes.now ≡ self.now.items) }
    {
        match &self.due {
            None => Some(self.bytes.as_slice()),
            Some(_) => None,
        }
    }

    /// The bytes, put together. Takes no memory.
    pub fn into_bytes(self) -> Vec<u8>
        ensures { result.items ≡ self.items }
    {
        let Lines { mut bytes, due } = self;
        let Some(due) = due else {
            return bytes;
        };
        put_together(&due.texts, &due.tails, due.lines.as_slice(), &mut bytes);
        bytes
    }
}
