ghost use Rattle.std.specs.Prelude.{◌≡◌, ℕ, ◌+◌, ◌-◌, ◌<◌, ◌≤◌, ◌↔◌, ◌++◌, List, length, take, drop, vec_len, Some, IsErr, IfOk, OnOk, OnErr, Contains};
ghost use Rattle.std.specs.Io.KnownBytes.{Consumes, IsAtEnd, Keeps};
ghost use Rattle.spmd_ports.specs.Counts.{Rose, raised};
ghost use Rattle.spmd_ports.specs.MemorySource.{MemorySource, fresh, given, read_on, failed};

use crate::errors::{Failed, NoMemory};
use crate::sources::Source;
use std::alloc::Global;
use std::marker::Model;

/// A source over memory: its own copy of some bytes, given in pieces.
#[derive(Debug, Drop)]
pub struct MemSource {
    bytes: Vec<u8>,
    place: usize,
    piece: usize,
    failing: Vec<u64>,
    calls: u64,
    faults: u64,
}

impl Model for MemSource {
    ghost Value = { MemorySource };

    ghost view = { λ s. record {
      left = drop s.place s.bytes.items;
      piece = s.piece;
      failing = s.failing.items;
      calls = s.calls;
      faults = s.faults;
    } };

    ghost invariant = { λ s. (s.place ≤ vec_len s.bytes) × (0 < s.piece) };
}

impl MemSource {
    /// A source that gives `bytes`, at most `piece` of them in one call.
    ///
    /// `failing` lists the calls that fail, counted from 1, in any order; past call 2^64 - 1 every
    /// call counts as that one.
    ///
    /// # Errors
    ///
    /// [`NoMemory`] where there is no memory for the copies.
    pub fn new(
        alloc: Global,
        bytes: &[u8],
        piece: usize,
        failing: &[u64],
    ) -> Result<MemSource, NoMemory>
        requires { 0 < piece }
        ensures { IfOk result (λ source. source ≡ fresh bytes.now piece failing.now) }
    {
        Ok(MemSource {
            bytes: bytes.to_vec(alloc)?,
            place: 0,
            piece,
            failing: failing.to_vec(alloc)?,
            calls: 0,
            faults: 0,
        })
    }
}

impl Source for MemSource {
    ghost left = { λ s. Some s.left };

    ghost faults = { λ s. s.faults };

    fn read(&mut self, into: &mut [u8]) -> Result<usize, Failed>
        // It fails exactly at the calls that are listed.
        ensures fails { IsErr result ↔ Contains self.old.failing (raised self.old.calls) }
        ensures failed { OnErr result (self.new ≡ failed self.old) }
        ensures count { IfOk result (λ n. n ≡ given self.old (length into.old)) }
        ensures given { IfOk result (λ n. self.new ≡ read_on self.old n) }
        ensures end { IfOk result (λ n. n ≡ 0 → 0 < length into.new
            → IsAtEnd (Some self.new.left)) }
        ensures bytes { IfOk result (λ n. into.new ≡ take n self.old.left ++ drop n into.old) }
        ensures fault_keeps_slice { OnErr result (into.new ≡ into.old) }
    {
        self.calls = self.calls.saturating_add(1);
        if self.failing.contains(&self.calls) {
            self.faults = self.faults.saturating_add(1);
            return Err(Failed);
        }
        let left = &self.bytes[self.place..];
        let count = self.piece.min(into.len()).min(left.len());
        into[..count].copy_from_slice(&left[..count]);
        self.place += count;
        Ok(count)
    }
}
