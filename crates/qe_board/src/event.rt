//! The events of the container, and why it may stop.

/// An event of the container. Workers and entries are numbered from 0.
#[derive(Clone, Copy, Debug, PartialEq, Eq)]
pub enum Event {
    /// The worker takes the entry, which waits.
    Take { worker: u32, entry: u32 },
    /// The worker gives the successors of the entry that it holds.
    Give { worker: u32, entry: u32 },
    /// The entry that the worker holds fails.
    Fail { worker: u32, entry: u32 },
    /// The worker drops the entry that it holds, since a stop is set.
    Drop { worker: u32, entry: u32 },
    /// A leaf is true: what waits is dropped.
    Cancel { worker: u32 },
    /// The successors of the entry would pass the limit: it is dropped, and what waits.
    Fill { worker: u32, entry: u32 },
    /// There is no memory: what waits is dropped.
    Starve { worker: u32 },
}

/// Why the container hands out nothing any more.
#[derive(Clone, Copy, Debug, PartialEq, Eq)]
pub enum Stopping {
    /// It is not stopped.
    Unset,
    /// A leaf is true.
    Truth,
    /// There would be more entries than the limit.
    Limit,
    /// There was no memory.
    Memory,
}
