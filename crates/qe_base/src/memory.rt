//! Sources and sinks in memory, whose every read and write is stated: for tests, and for callers that hold the bytes.

ghost use Rattle.std.specs.Prelude.{◌≡◌, ◌<◌, ◌≤◌, ◌+◌, ◌^◌, ◌++◌, [], length, take, drop, is_err, IsTrue, IfOk, OnErr, Some};
ghost use Rattle.std.specs.Io.KnownBytes.{Appends, Consumes};
ghost use Rattle.qe_base.specs.Count.{Rose};
ghost use Rattle.qe_base.specs.Source.{GivesNoneAtEnd};
ghost use Rattle.qe_base.specs.Memory.{is_listed, cut_of, given_count, supply_after, supply_after_fault, is_refused, taken_count, store_after, store_after_fault};

use crate::OutOfMemory;
use crate::sink::Sink;
use crate::source::{Failed, Source};
use std::alloc::Global;
use std::marker::Model;

/// A source of bytes in memory. Its reads are numbered from 0: those whose number is in `failing`
/// fail, and read n of the others gives at most `cuts[n]` bytes, a cut of 0 counting as 1, and past
/// the cuts as many as fit.
#[derive(Drop)]
pub struct MemSource {
    bytes: Vec<u8>,
    position: usize,
    reads: u64,
    cuts: Vec<u32>,
    failing: Vec<u32>,
    faults: u64,
}

impl Model for MemSource {
    ghost use Rattle.std.specs.Prelude.{◌≤◌, ◌^◌, drop, vec_len};
    ghost use Rattle.qe_base.specs.Memory.{Supply};

    ghost Value = { Supply };

    ghost view = { λ s. record {
      left = drop s.position s.bytes.items;
      reads = s.reads;
      cuts = s.cuts.items;
      failing = s.failing.items;
      faults = s.faults;
    } };

    // A fault is at a number that is listed, so there are at most 2^32 of them.
    ghost invariant = { λ s.
        (s.position ≤ vec_len s.bytes) × (s.faults ≤ s.reads) × (s.faults ≤ 2 ^ 32) };
}

impl MemSource {
    /// A source that gives these bytes, with no read made yet.
    pub fn new(bytes: Vec<u8>, cuts: Vec<u32>, failing: Vec<u32>) -> MemSource
        ensures { result ≡ record {
          left = bytes.items;
          reads = 0;
          cuts = cuts.items;
          failing = failing.items;
          faults = 0;
        } }
    {
        MemSource {
            bytes,
            position: 0,
            reads: 0,
            cuts,
            failing,
            faults: 0,
        }
    }
}

impl Source for MemSource {
    ghost left = { λ s. Some s.left };

    ghost faults = { λ s. s.faults };

    ghost reads = { λ s. s.reads };

    fn read(&mut self, out: &mut [u8]) -> Result<usize, Failed>
        ensures bound { IfOk result (λ n. n ≤ length out.new) }
        ensures gives { IfOk result
            (λ n. Consumes (Some self.old.left) (Some self.new.left) (take n out.new)) }
        ensures end { IfOk result (GivesNoneAtEnd (Some self.old.left) (length out.new)) }
        ensures err { OnErr result (self.new.left ≡ self.old.left) }
        ensures fault { OnErr result (Rose self.old.faults self.new.faults) }
        ensures faults_kept { self.old.faults ≤ self.new.faults }
        ensures reads_counted { self.new.reads ≤ self.old.reads + 1 }
        ensures fails { is_err result ≡ is_listed self.old.failing self.old.reads }
        ensures count { IfOk result (λ n. n ≡ given_count self.old (length out.old)) }
        ensures filled { IfOk result (λ n. out.new ≡ take n self.old.left ++ drop n out.old) }
        ensures after { IfOk result (λ n. self.new ≡ supply_after self.old n) }
        ensures after_fault { OnErr result (self.new ≡ supply_after_fault self.old) }
    {
        let number = self.reads;
        self.reads = number.saturating_add(1);
        if is_among(&self.failing, number) {
            self.faults += 1;
            return Err(Failed);
        }
        let cut = cut_at(&self.cuts, number, out.len()).max(1);
        let rest = &self.bytes[self.position..];
        let count = cut.min(out.len()).min(rest.len());
        out[..count].copy_from_slice(&rest[..count]);
        self.position += count;
        Ok(count)
    }
}

/// A sink of bytes in memory, whose writes take no memory. Its writes are numbered from 0: those
/// whose number is in `failing` fail, and so does a write of a piece that is not empty where its
/// cut is 0 or no room is left. Write n of the others takes at most `cuts[n]` bytes, and past the
/// cuts as many as fit.
#[derive(Drop)]
pub struct MemSink {
    taken: Vec<u8>,
    room: usize,
    writes: u64,
    cuts: Vec<u32>,
    failing: Vec<u32>,
    faults: u64,
}

impl Model for MemSink {
    ghost use Rattle.std.specs.Prelude.{◌≤◌, vec_len, vec_capacity};
    ghost use Rattle.qe_base.specs.Memory.{Store};

    ghost Value = { Store };

    ghost view = { λ s. record {
      taken = s.taken.items;
      room = s.room;
      writes = s.writes;
      cuts = s.cuts.items;
      failing = s.failing.items;
      faults = s.faults;
    } };

    ghost invariant = { λ s. (vec_len s.taken ≤ s.room) × (s.room ≤ vec_capacity s.taken) };
}

impl MemSink {
    /// A sink with room for this many bytes, for which it takes the memory here.
    pub fn new(
        alloc: Global,
        room: u32,
        cuts: Vec<u32>,
        failing: Vec<u32>,
    ) -> Result<MemSink, OutOfMemory>
        ensures { IfOk result (λ sink. sink ≡ record {
          taken = [];
          room = room;
          writes = 0;
          cuts = cuts.items;
          failing = failing.items;
          faults = 0;
        }) }
    {
        let room = room as usize;
        Ok(MemSink {
            taken: Vec::with_capacity(alloc, room)?,
            room,
            writes: 0,
            cuts,
            failing,
            faults: 0,
        })
    }

    /// The bytes that it took.
    pub fn taken(&self) -> &[u8]
        ensures { result.now ≡ self.now.taken }
    {
        self.taken.as_slice()
    }
}

impl Sink for MemSink {
    ghost taken = { λ s. Some s.taken };

    ghost faults = { λ s. s.faults };

    fn write(&mut self, piece: &[u8]) -> Result<usize, Failed>
        ensures bound { IfOk result (λ n. n ≤ length piece.now) }
        ensures some { IfOk result (λ n. 0 < length piece.now → 0 < n) }
        ensures takes { IfOk result
            (λ n. Appends (Some self.old.taken) (Some self.new.taken) (take n piece.now)) }
        ensures err { OnErr result (self.new.taken ≡ self.old.taken) }
        ensures fault { OnErr result (Rose self.old.faults self.new.faults) }
        ensures faults_kept { self.old.faults ≤ self.new.faults }
        ensures fails { is_err result ≡ is_refused self.old piece.now }
        ensures count { IfOk result (λ n. n ≡ taken_count self.old piece.now) }
        ensures after { IfOk result (λ n. self.new ≡ store_after self.old piece.now n) }
        ensures after_fault { OnErr result (self.new ≡ store_after_fault self.old) }
    {
        let number = self.writes;
        self.writes = number.saturating_add(1);
        let cut = cut_at(&self.cuts, number, piece.len());
        let count = cut.min(piece.len()).min(self.room - self.taken.len());
        if is_among(&self.failing, number) || (count == 0 && !piece.is_empty()) {
            self.faults = self.faults.saturating_add(1);
            return Err(Failed);
        }
        // There is room for these bytes, so this takes no memory.
        self.taken.extend_from_slice(&piece[..count]).unwrap();
        Ok(count)
    }
}

/// Whether the number is listed.
fn is_among(numbers: &[u32], number: u64) -> bool
    ensures value { result ≡ is_listed numbers.now number }
    ensures small { IsTrue result → number < 2 ^ 32 }
{
    numbers.iter().any(|listed| u64::from(*listed) == number)
}

/// The cut of the call of this number, and past the cuts what is asked for.
fn cut_at(cuts: &[u32], number: u64, asked: usize) -> usize
    ensures { result ≡ cut_of cuts.now number asked }
{
    match cuts.get(number as usize) {
        Some(cut) => *cut as usize,
        None => asked,
    }
}
