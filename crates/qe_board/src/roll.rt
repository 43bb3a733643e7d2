//! The entries with what is counted of them, so that no question goes through them all.

ghost use Rattle.std.specs.Prelude.{◌≡◌, ◌<◌, ◌≤◌, ◌++◌, ◌∷◌, [], ◌^◌, length, map, take, true, false, cond, Some, slice_get, OnOk, OnErr, IfOk, IfSome, IfNone};
ghost use Rattle.std.specs.Option.{option_map, option_copied};
ghost use Rattle.qe_board.specs.Verdict.{fault_in};
ghost use Rattle.qe_board.specs.State.{keys, count, is_waiting, is_held, is_unset, has_true_leaf, leaf, waiting};
ghost use Rattle.qe_board.specs.Machine.{among, put, drop_waiting, waits_first, opened};
ghost use Rattle.qe_board.specs.Shown.{condition, conditions, IsCopy, IsCopyAt, IsFound};
ghost use Rattle.qe_board.specs.Counted.{first_true, if_below};

use crate::entries::{Entries, Progress};
use crate::event::Stopping;
use qe_piece::{OutOfMemory, Piece};
use std::alloc::Global;
use std::marker::Model;

/// The entries, why the container stops, and counts. Contracts see the state.
#[derive(Drop)]
pub struct Roll<N: Piece> {
    entries: Entries<N>,
    /// No entry before this one waits.
    next: usize,
    waiting: usize,
    held: usize,
    true_leaf: Option<usize>,
    stopping: Stopping,
}

impl<N: Piece> Model for Roll<N> {
    ghost use Rattle.qe_board.specs.State.{State};
    ghost use Rattle.qe_board.specs.Counted.{IsCounted};

    ghost Value = { State N.Fault };

    ghost view = { λ r. record { entries = r.entries; stop = r.stopping } };

    ghost invariant = { λ r. IsCounted N.truth (record { entries = r.entries; stop = r.stopping }) r.next r.waiting r.held r.true_leaf };
}

/// What becomes of a piece first: a leaf is one, and all else waits, kept to be handed out.
pub fn opening<N: Piece>(piece: N) -> Progress<N>
    ensures copy { IsCopy N.key (N.key piece) result }
    ensures condition { condition result ≡ cond (N.leaf (N.key piece)) leaf waiting }
{
    if piece.is_leaf() {
        Progress::Leaf
    } else {
        Progress::Waiting(piece)
    }
}

/// Where to look next for an entry that waits, when one changes.
fn no_later(next: usize, entry: usize, waits: bool) -> usize
    ensures next { result ≤ next }
    ensures entry { waits ≡ true → result ≤ entry }
{
    if waits { next.min(entry) } else { next }
}

/// The entry, if it stays where there are only so many.
fn below(entry: Option<usize>, len: usize) -> Option<usize>
    ensures { result ≡ if_below len entry }
{
    match entry {
        Some(number) if number < len => entry,
        _ => None,
    }
}

impl<N: Piece> Roll<N> {
    /// The root alone.
    pub fn open(alloc: Global, root: N) -> Result<Roll<N>, OutOfMemory>
        ensures { IfOk result (λ r. r ≡ opened N.meaning N.leaf N.truth 0 (N.key root)) }
    {
        let progress = opening(root.copy(alloc)?);
        let mut roll = Roll {
            entries: Entries::new(alloc),
            next: 0,
            waiting: 0,
            held: 0,
            true_leaf: None,
            stopping: Stopping::Unset,
        };
        roll.append(root, progress)?;
        Ok(roll)
    }

    /// How many entries there are.
    pub fn len(&self) -> usize
        ensures len { result ≡ length self.now.entries }
        ensures few { length self.now.entries < 2 ^ 63 }
    {
        self.entries.len()
    }

    /// How many entries wait.
    pub fn waiting(&self) -> usize
        ensures { result ≡ count is_waiting self.now.entries }
    {
        self.waiting
    }

    /// How many entries are held.
    pub fn held(&self) -> usize
        ensures { result ≡ count is_held self.now.entries }
    {
        self.held
    }

    /// Why it stops.
    pub fn stopping(&self) -> Stopping
        ensures { result ≡ self.now.stop }
    {
        self.stopping
    }

    /// The first entry that is a true leaf.
    pub fn true_leaf(&self) -> Option<usize>
        ensures { result ≡ first_true N.truth (keys self.now) }
    {
        self.true_leaf
    }

    /// The entries.
    pub fn entries(&self) -> &Entries<N>
        ensures { result.now ≡ self.now.entries }
    {
        &self.entries
    }

    /// The piece of an entry.
    pub fn piece(&self, entry: usize) -> Option<&N>
        ensures { option_map N.key (option_copied result) ≡ slice_get (keys self.now) entry }
    {
        self.entries.piece(entry)
    }

    /// Why an entry failed.
    pub fn fault(&self, entry: usize) -> Option<&N::Fault>
        ensures { option_copied result ≡ fault_in (slice_get (conditions self.now.entries) entry) }
    {
        self.entries.fault(entry)
    }

    /// Whether a leaf is true.
    pub fn has_true_leaf(&self) -> bool
        ensures { result ≡ has_true_leaf N.truth self.now }
    {
        self.true_leaf.is_some()
    }

    /// Whether no stop is set.
    pub fn is_unset(&self) -> bool
        ensures { result ≡ is_unset self.now.stop }
    {
        matches!(self.stopping, Stopping::Unset)
    }

    // the first true leaf, once this piece is an entry too
    fn true_leaf_with(&self, piece: &N) -> Option<usize>
        ensures leaf { result ≡ first_true N.truth (keys self.now ++ N.key piece.now ∷ []) }
        ensures few { length self.now.entries < 2 ^ 63 }
    {
        let entry = self.len();
        match self.true_leaf {
            Some(first) => Some(first),
            None if piece.is_true() => Some(entry),
            None => None,
        }
    }

    /// The number of the entry with this piece.
    pub fn find(&self, piece: &N) -> Option<usize>
        ensures { IsFound (keys self.now) (N.key piece.now) result }
    {
        self.entries.find(piece)
    }

    /// One more entry, whose piece is none so far. For want of memory nothing changes.
    pub fn append(&mut self, piece: N, progress: Progress<N>) -> Result<(), OutOfMemory>
        requires new { among (N.key piece) (keys self.old) ≡ false }
        requires copy { IsCopy N.key (N.key piece) progress }
        ensures ok { OnOk result (self.new ≡ record { entries = self.old.entries ++ record { key = N.key piece; condition = condition progress } ∷ []; stop = self.old.stop }) }
        ensures err { OnErr result (self.new ≡ self.old) }
    {
        let waits = usize::from(progress.waits());
        let holds = usize::from(progress.is_held());
        let true_leaf = self.true_leaf_with(&piece);
        self.entries.append(piece, progress)?;
        self.waiting += waits;
        self.held += holds;
        self.true_leaf = true_leaf;
        Ok(())
    }

    /// Only the first entries stay, as many as `len` says. None of the others waits or is held.
    pub fn truncate(&mut self, len: usize)
        requires waiting { count is_waiting (take len self.old.entries) ≡ count is_waiting self.old.entries }
        requires held { count is_held (take len self.old.entries) ≡ count is_held self.old.entries }
        ensures { self.new ≡ record { entries = take len self.old.entries; stop = self.old.stop } }
    {
        self.entries.truncate(len);
        self.next = self.next.min(len);
        self.true_leaf = below(self.true_leaf, len);
    }

    /// Changes what has become of an entry, and gives what it was.
    pub fn set(&mut self, entry: usize, progress: Progress<N>) -> Progress<N>
        requires within { entry < length self.old.entries }
        requires copy { IsCopyAt N.key entry self.old.entries progress }
        ensures changed { self.new ≡ record { entries = put entry (condition progress) self.old.entries; stop = self.old.stop } }
        ensures was { slice_get (conditions self.old.entries) entry ≡ Some (condition result) }
        ensures copy { IsCopyAt N.key entry self.old.entries result }
    {
        let waits = progress.waits();
        let holds = progress.is_held();
        let was = self.entries.replace(entry, progress);
        self.next = no_later(self.next, entry, waits);
        self.waiting += usize::from(waits);
        self.waiting -= usize::from(was.waits());
        self.held += usize::from(holds);
        self.held -= usize::from(was.is_held());
        was
    }

    /// The first entry that waits.
    pub fn first_waiting(&mut self) -> Option<usize>
        ensures kept { self.new ≡ self.old }
        ensures first { IfSome result (λ n. waits_first n self.old.entries ≡ true) }
        ensures within { IfSome result (λ n. n < length self.old.entries) }
        ensures none { IfNone result (count is_waiting self.old.entries ≡ 0) }
    {
        let first = self.waits_next();
        self.next = first.unwrap_or(self.entries.len());
        first
    }

    fn waits_next(&self) -> Option<usize>
        ensures first { IfSome result (λ n. waits_first n self.now.entries ≡ true) }
        ensures within { IfSome result (λ n. n < length self.now.entries) }
        ensures none { IfNone result (count is_waiting self.now.entries ≡ 0) }
    {
        for entry in self.next..self.entries.len() {
            if self.entries.waits(entry) {
                return Some(entry);
            }
        }
        None
    }

    /// Drops what waits, and says why the container stops.
    pub fn stop(&mut self, stopping: Stopping)
        ensures { self.new ≡ record { entries = drop_waiting self.old.entries; stop = stopping } }
    {
        self.entries.drop_waiting(self.next);
        self.waiting = 0;
        self.stopping = stopping;
    }
}
