// The output of a run.

ghost use Rattle.std.specs.Prelude.{◌≡◌, ◌+◌, ◌≤◌, [], ◌∷◌, ◌++◌, IfOk, IsOk, OnErr, OnOk, length};
ghost use Rattle.nest_model.specs.Memory.{number_text};

use itoa::Buffer;
use std::alloc::{AllocError, Global};
use std::marker::Model;

/// The output of a run: its lines, one behind another, each with its line end. Contracts see the
/// bytes, and the room: how many there can be before memory is asked for.
#[derive(Drop)]
pub struct Output {
    bytes: Vec<u8>,
}

impl Model for Output {
    ghost use Rattle.std.specs.Prelude.{vec_capacity};
    ghost use Rattle.seq_meaning.specs.Room.{Written};

    ghost Value = { Written };

    ghost view = { λ o. record { bytes = o.bytes.items; room = vec_capacity o.bytes } };
}

impl Output {
    /// No line yet.
    pub fn new(alloc: Global) -> Self
        ensures { result.bytes ≡ [] }
    {
        Output {
            bytes: Vec::new(alloc),
        }
    }

    /// No line yet, with room for so many bytes.
    pub fn with_room(alloc: Global, room: usize) -> Result<Self, AllocError>
        ensures bytes { IfOk result (λ o. o.bytes ≡ []) }
        ensures room { IfOk result (λ o. room ≤ o.room) }
    {
        Ok(Output {
            bytes: Vec::with_capacity(alloc, room)?,
        })
    }

    /// The bytes, in order.
    pub fn as_slice(&self) -> &[u8]
        ensures { result.now ≡ self.now.bytes }
    {
        self.bytes.as_slice()
    }

    /// The vector of the bytes. It takes no memory.
    pub fn into_bytes(self) -> Vec<u8>
        ensures { result.items ≡ self.bytes }
    {
        let Output { bytes } = self;
        bytes
    }

    /// One blank and a number, which takes at most 21 bytes. Where memory runs out the bytes are
    /// what they were.
    pub fn push_number(&mut self, value: i64) -> Result<(), AllocError>
        ensures ok { OnOk result (self.new.bytes ≡ self.old.bytes ++ number_text value) }
        ensures err { OnErr result (self.new.bytes ≡ self.old.bytes) }
        ensures fits { length self.old.bytes + 21 ≤ self.old.room → IsOk result }
        ensures grown { length self.new.bytes ≤ length self.old.bytes + 21 }
        ensures room { self.old.room ≤ self.new.room }
    {
        let mut buffer = Buffer::new();
        self.push_text(buffer.format(value).as_bytes())
    }

    /// One blank and these characters. Where memory runs out the bytes are what they were.
    pub fn push_text(&mut self, characters: &[u8]) -> Result<(), AllocError>
        ensures ok { OnOk result (self.new.bytes ≡ self.old.bytes ++ 32 ∷ characters.now) }
        ensures err { OnErr result (self.new.bytes ≡ self.old.bytes) }
        ensures fits { length self.old.bytes + (length characters.now + 1) ≤ self.old.room
            → IsOk result }
        ensures room { self.old.room ≤ self.new.room }
    {
        self.bytes.reserve(characters.len() + 1)?;
        self.bytes.push(b' ')?;
        self.bytes.extend_from_slice(characters)?;
        Ok(())
    }

    /// The end of a line. Where memory runs out the bytes are what they were.
    pub fn end_line(&mut self) -> Result<(), AllocError>
        ensures ok { OnOk result (self.new.bytes ≡ self.old.bytes ++ 10 ∷ []) }
        ensures err { OnErr result (self.new.bytes ≡ self.old.bytes) }
        ensures fits { length self.old.bytes + 1 ≤ self.old.room → IsOk result }
        ensures room { self.old.room ≤ self.new.room }
    {
        self.bytes.push(b'\n')?;
        Ok(())
    }
}
