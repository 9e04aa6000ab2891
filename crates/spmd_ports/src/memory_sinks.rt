ghost use Rattle.std.specs.Prelude.{◌≡◌, ℕ, ◌+◌, ◌-◌, ◌<◌, ◌≤◌, ◌↔◌, ◌++◌, List, length, take, drop, vec_len, vec_capacity, Some, IsErr, IfOk, OnOk, OnErr, Contains};
ghost use Rattle.std.specs.Io.KnownBytes.{Appends, Keeps};
ghost use Rattle.spmd_ports.specs.Counts.{Rose, raised};
ghost use Rattle.spmd_ports.specs.MemorySink.{MemorySink, fresh, taken, written_on, failed};

use crate::errors::{Failed, NoMemory};
use crate::sinks::Sink;
use std::alloc::Global;
use std::marker::Model;

/// A sink over memory, made with all its room.
#[derive(Debug, Drop)]
pub struct MemSink {
    bytes: Vec<u8>,
    room: usize,
    piece: usize,
    failing: Vec<u64>,
    empty: Vec<u64>,
    calls: u64,
    faults: u64,
    empties: u64,
}

impl Model for MemSink {
    ghost Value = { MemorySink };

    ghost view = { λ s. record {
      written = s.bytes.items;
      room = s.room;
      piece = s.piece;
      failing = s.failing.items;
      empty = s.empty.items;
      calls = s.calls;
      faults = s.faults;
      empties = s.empties;
    } };

    ghost invariant = { λ s. (vec_len s.bytes ≤ s.room) × (s.room ≤ vec_capacity s.bytes) };
}

impl MemSink {
    /// A sink with room for `room` bytes, which takes at most `piece` of them in one call. A piece
    /// past the room is cut, and where no room is left 0 bytes are taken.
    ///
    /// `failing` lists the calls that fail, and `empty` those that take 0 bytes whatever room there
    /// is, both counted from 1, in any order; past call 2^64 - 1 every call counts as that one. A
    /// call in both lists fails.
    ///
    /// # Errors
    ///
    /// [`NoMemory`] where there is no memory for the room or the lists.
    pub fn new(
        alloc: Global,
        room: usize,
        piece: usize,
        failing: &[u64],
        empty: &[u64],
    ) -> Result<MemSink, NoMemory>
        requires { 0 < piece }
        ensures { IfOk result (λ sink. sink ≡ fresh room piece failing.now empty.now) }
    {
        Ok(MemSink {
            bytes: Vec::with_capacity(alloc, room)?,
            room,
            piece,
            failing: failing.to_vec(alloc)?,
            empty: empty.to_vec(alloc)?,
            calls: 0,
            faults: 0,
            empties: 0,
        })
    }

    // How many bytes the next call takes of so many.
    fn next_count(&self, offered: usize) -> usize
        ensures { result ≡ taken self.now offered }
    {
        if self.empty.contains(&self.calls.saturating_add(1)) {
            return 0;
        }
        let free = self.room - self.bytes.len();
        self.piece.min(offered).min(free)
    }

    /// What was written.
    pub fn written(&self) -> &[u8]
        ensures { result.now ≡ self.now.written }
    {
        &self.bytes
    }
}

impl Sink for MemSink {
    ghost written = { λ s. Some s.written };

    ghost faults = { λ s. s.faults };

    ghost empties = { λ s. s.empties };

    fn write(&mut self, from: &[u8]) -> Result<usize, Failed>
        // It fails exactly at the calls that are listed.
        ensures fails { IsErr result ↔ Contains self.old.failing (raised self.old.calls) }
        ensures failed { OnErr result (self.new ≡ failed self.old) }
        ensures count { IfOk result (λ n. n ≡ taken self.old (length from.now)) }
        ensures written { IfOk result (λ n. self.new ≡ written_on self.old n from.now) }
    {
        let count = self.next_count(from.len());
        self.calls = self.calls.saturating_add(1);
        if self.failing.contains(&self.calls) {
            self.faults = self.faults.saturating_add(1);
            return Err(Failed);
        }
        self.bytes.extend_from_slice(&from[..count]).unwrap();
        if count == 0 && !from.is_empty() {
            self.empties = self.empties.saturating_add(1);
        }
        Ok(count)
    }
}
