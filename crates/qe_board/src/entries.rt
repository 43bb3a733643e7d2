//! The entries of the container: distinct pieces in the order of their coming, and what has become of each.

ghost use Rattle.std.specs.Prelude.{ℕ, ◌≡◌, ◌<◌, ◌++◌, ◌∷◌, [], length, map, take, false, Some, slice_get, OnOk, OnErr, ◌^◌};
ghost use Rattle.std.specs.Option.{option_map, option_copied};
ghost use Rattle.qe_board.specs.Verdict.{fault_in};
ghost use Rattle.qe_board.specs.Recorded.{links_of, links_at, is_leaf, has_failed};
ghost use Rattle.qe_board.specs.Shown.{link_of};
ghost use Rattle.qe_board.specs.State.{is_waiting, is_held, at};
ghost use Rattle.qe_board.specs.Machine.{among, put, drop_waiting};
ghost use Rattle.qe_board.specs.Shown.{condition, conditions, IsCopy, IsCopyAt, IsFound};

use indexmap::IndexSet;
use qe_piece::{OutOfMemory, Piece};
use std::alloc::Global;
use std::marker::Model;
use std::mem;

/// A successor of an entry: the number of its point, and the number of its entry.
#[derive(Clone, Copy, Debug, PartialEq, Eq)]
pub struct Link {
    pub point: u64,
    pub entry: u32,
}

/// What has become of an entry.
#[derive(Drop)]
pub enum Progress<N: Piece> {
    /// It waits. The piece is kept a second time, to be handed out.
    Waiting(N),
    /// The worker with this number holds it.
    Held(u32),
    /// Its successors are entries.
    Expanded(Vec<Link>),
    /// It is a leaf.
    Leaf,
    /// It fails.
    Failed(N::Fault),
    /// It was dropped, since a stop was set.
    Dropped,
}

impl<N: Piece> Progress<N> {
    /// Whether it waits.
    pub fn waits(&self) -> bool
        ensures { result ≡ is_waiting (condition self.now) }
    {
        matches!(self, Progress::Waiting(_))
    }

    /// Whether a worker holds it.
    pub fn is_held(&self) -> bool
        ensures { result ≡ is_held (condition self.now) }
    {
        matches!(self, Progress::Held(_))
    }

    /// The links of one that was expanded.
    pub fn links(&self) -> &[Link]
        ensures { map link_of result.now ≡ links_of (condition self.now) }
    {
        match self {
            Progress::Expanded(links) => links.as_slice(),
            _ => &[],
        }
    }

    /// Whether it is a leaf.
    pub fn is_leaf(&self) -> bool
        ensures { result ≡ is_leaf (condition self.now) }
    {
        matches!(self, Progress::Leaf)
    }

    /// Whether it failed.
    pub fn has_failed(&self) -> bool
        ensures { result ≡ has_failed (condition self.now) }
    {
        matches!(self, Progress::Failed(_))
    }

    /// Why it failed.
    pub fn fault(&self) -> Option<&N::Fault>
        ensures { option_copied result ≡ fault_in (Some (condition self.now)) }
    {
        match self {
            Progress::Failed(fault) => Some(fault),
            _ => None,
        }
    }
}

/// The entries, by the hash of their pieces. Contracts see the list of keys with their conditions.
#[derive(Drop)]
pub struct Entries<N: Piece> {
    pieces: IndexSet<N>,
    progress: Vec<Progress<N>>,
}

impl<N: Piece> Model for Entries<N> {
    ghost use Rattle.std.specs.Prelude.{List};
    ghost use Rattle.indexmap.specs.IndexSet.{IsUnique};
    ghost use Rattle.qe_board.specs.State.{Entry};
    ghost use Rattle.qe_board.specs.Shown.{entries_of, AreCopies};

    ghost Value = { List (Entry N.Fault) };

    ghost view = { λ e. entries_of N.key e.pieces.keys e.progress.items };

    ghost invariant = { λ e. IsUnique N.eq e.pieces × AreCopies N.key e.pieces.keys e.progress.items };
}

impl<N: Piece> Entries<N> {
    /// No entries. It takes no memory.
    pub fn new(alloc: Global) -> Entries<N>
        ensures { result ≡ [] }
    {
        Entries {
            pieces: IndexSet::new(alloc),
            progress: Vec::new(alloc),
        }
    }

    /// How many there are.
    pub fn len(&self) -> usize
        ensures len { result ≡ length self.now }
        ensures few { length self.now < 2 ^ 63 }
    {
        self.progress.len()
    }

    /// The number of the entry with this piece.
    pub fn find(&self, piece: &N) -> Option<usize>
        ensures { IsFound (map (λ e. e.key) self.now) (N.key piece.now) result }
    {
        self.pieces.get_index_of(piece)
    }

    /// Whether the entry waits.
    pub fn waits(&self, entry: usize) -> bool
        requires { entry < length self.now }
        ensures { result ≡ at is_waiting entry self.now }
    {
        self.progress[entry].waits()
    }

    // what has become of an entry
    fn progress_of(&self, entry: usize) -> &Progress<N>
        requires { entry < length self.now }
        ensures { slice_get (conditions self.now) entry ≡ Some (condition result.now) }
    {
        &self.progress[entry]
    }

    /// The links of an entry.
    pub fn links(&self, entry: usize) -> &[Link]
        requires { entry < length self.now }
        ensures { map link_of result.now ≡ links_at entry self.now }
    {
        self.progress_of(entry).links()
    }

    /// Whether an entry is a leaf.
    pub fn is_leaf(&self, entry: usize) -> bool
        requires { entry < length self.now }
        ensures { result ≡ at is_leaf entry self.now }
    {
        self.progress_of(entry).is_leaf()
    }

    /// Whether an entry failed.
    pub fn has_failed(&self, entry: usize) -> bool
        requires { entry < length self.now }
        ensures { result ≡ at has_failed entry self.now }
    {
        self.progress_of(entry).has_failed()
    }

    /// The piece of an entry.
    pub fn piece(&self, entry: usize) -> Option<&N>
        ensures { option_map N.key (option_copied result) ≡ slice_get (map (λ e. e.key) self.now) entry }
    {
        self.pieces.get_index(entry)
    }

    /// Why an entry failed.
    pub fn fault(&self, entry: usize) -> Option<&N::Fault>
        ensures { option_copied result ≡ fault_in (slice_get (conditions self.now) entry) }
    {
        match self.progress.get(entry) {
            Some(progress) => progress.fault(),
            None => None,
        }
    }

    /// One more entry, whose piece is none so far. For want of memory nothing changes.
    pub fn append(&mut self, piece: N, progress: Progress<N>) -> Result<(), OutOfMemory>
        requires new { among (N.key piece) (map (λ e. e.key) self.old) ≡ false }
        requires copy { IsCopy N.key (N.key piece) progress }
        ensures ok { OnOk result (self.new ≡ self.old ++ record { key = N.key piece; condition = condition progress } ∷ []) }
        ensures err { OnErr result (self.new ≡ self.old) }
    {
        self.progress.reserve(1)?;
        match self.pieces.insert(piece) {
            Ok(_) => {
                self.progress.push_reserved(progress);
                Ok(())
            }
            Err(_) => Err(OutOfMemory),
        }
    }

    /// Only the first entries stay, as many as `len` says.
    pub fn truncate(&mut self, len: usize)
        ensures { self.new ≡ take len self.old }
    {
        self.pieces.truncate(len);
        self.progress.truncate(len);
    }

    /// Changes what has become of an entry, and gives what it was.
    pub fn replace(&mut self, entry: usize, progress: Progress<N>) -> Progress<N>
        requires within { entry < length self.old }
        requires copy { IsCopyAt N.key entry self.old progress }
        ensures changed { self.new ≡ put entry (condition progress) self.old }
        ensures was { slice_get (conditions self.old) entry ≡ Some (condition result) }
        ensures copy { IsCopyAt N.key entry self.old result }
        ensures few { length self.old < 2 ^ 63 }
    {
        mem::replace(&mut self.progress[entry], progress)
    }

    /// Drops what waits. No entry before this one does.
    pub fn drop_waiting(&mut self, from: usize)
        requires { (n : ℕ) → n < from → at is_waiting n self.old ≡ false }
        ensures { self.new ≡ drop_waiting self.old }
    {
        for entry in from..self.len() {
            if self.waits(entry) {
                drop(self.replace(entry, Progress::Dropped));
            }
        }
    }
}
