// Reading the whole of a source.

ghost use Rattle.std.specs.Prelude.{◌≡◌, ◌+◌, ◌≤◌, ◌<◌, length, IfOk, OnOk};
ghost use Rattle.std.specs.Io.KnownBytes.{Consumes, IsAtEnd};
ghost use Rattle.spmd_ports.specs.Counts.{Rose};
ghost use Rattle.whole_streams.specs.declared.reading.ReadTrouble.TheVariants.{NoMemory};
ghost use Rattle.whole_streams.specs.Streams.{TakesBytes};

use f77_lines::MOST_BYTES;
use spmd_ports::Source;
use std::alloc::{AllocError, Global};

// The most bytes that are taken by one read.
const CHUNK: usize = 4096;

/// Why a source was not read to its end.
#[derive(Clone, Copy, Debug, PartialEq, Eq)]
pub enum ReadTrouble {
    /// A read failed.
    Fault,
    /// It gave more than 4,194,304 bytes.
    TooLong,
    /// Memory ran out.
    NoMemory,
}

impl From<AllocError> for ReadTrouble {
    ghost from_gives = { λ _ trouble. trouble ≡ NoMemory };

    fn from(_error: AllocError) -> ReadTrouble {
        ReadTrouble::NoMemory
    }
}

/// All bytes of a source, up to its end. Of a source that is too long exactly 4,194,305 bytes are
/// taken.
pub fn read_all<S: Source>(alloc: Global, source: &mut S) -> Result<Vec<u8>, ReadTrouble>
    ensures read { IfOk result (λ bytes. Consumes (S.left source.old) (S.left source.new)
        bytes.items) }
    ensures end { OnOk result (IsAtEnd (S.left source.new)) }
    ensures short { IfOk result (λ bytes. length bytes.items ≤ MOST_BYTES) }
    ensures fault { result ≡ Err ReadTrouble.Fault → Rose (S.faults source.old)
        (S.faults source.new) }
    ensures no_fault { S.faults source.old < S.faults source.new → result ≡ Err ReadTrouble.Fault }
    ensures long { result ≡ Err ReadTrouble.TooLong → TakesBytes (S.left source.old)
        (S.left source.new) (MOST_BYTES + 1) }
{
    let mut bytes: Vec<u8> = Vec::new(alloc);
    let mut chunk = [0u8; CHUNK];
    while bytes.len() <= MOST_BYTES {
        let room = CHUNK.min(MOST_BYTES + 1 - bytes.len());
        let Ok(count) = source.read(&mut chunk[..room]) else {
            return Err(ReadTrouble::Fault);
        };
        if count == 0 {
            return Ok(bytes);
        }
        if bytes.extend_from_slice(&chunk[..count]).is_err() {
            return Err(ReadTrouble::NoMemory);
        }
    }
    Err(ReadTrouble::TooLong)
}
