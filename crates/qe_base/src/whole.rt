//! Reading to the end, and writing all.

ghost use Rattle.std.specs.Prelude.{◌≡◌, ◌+◌, ◌-◌, ◌≤◌, ◌<◌, ◌++◌, ℕ, List, [], length, take, IfOk, OnOk, OnErr, vec_len};
ghost use Rattle.std.specs.Io.KnownBytes.{Consumes, Appends};
ghost use Rattle.qe_base.specs.Count.{Rose};
ghost use Rattle.qe_base.specs.Source.{LosesFront, LosesAll, MovesFront, HasMoreThan};
ghost use Rattle.qe_base.specs.declared.whole.ReadStop.TheVariants.{Fault, OutOfMemory};
ghost use Rattle.qe_base.specs.Sink.{AppendsUpTo};

use crate::sink::Sink;
use crate::source::{Failed, Source};
use std::alloc::{AllocError, Global};

/// The most bytes that `read_all` answers.
pub const READ_LIMIT: usize = 1_048_576;

/// Each turn but the last takes a byte at least, so these turns suffice.
const TURNS: usize = 1_048_578;

/// How many bytes one read asks for.
const PIECE: usize = 4096;

/// Why a whole read stopped before the end.
#[derive(Clone, Copy, Debug, PartialEq, Eq)]
pub enum ReadStop {
    /// A read failed, so the source's count of faults rose.
    Fault,
    /// The source gave more than `READ_LIMIT` bytes.
    TooLong,
    /// There was no memory for the bytes.
    OutOfMemory,
}

impl From<Failed> for ReadStop {
    ghost from_gives = { λ _ stop. stop ≡ Fault };

    fn from(_failed: Failed) -> ReadStop {
        ReadStop::Fault
    }
}

impl From<AllocError> for ReadStop {
    ghost from_gives = { λ _ stop. stop ≡ OutOfMemory };

    fn from(_error: AllocError) -> ReadStop {
        ReadStop::OutOfMemory
    }
}

/// Reads until a read gives nothing, and answers the bytes, of which there are `READ_LIMIT` at most.
pub fn read_all<S: Source>(alloc: Global, source: &mut S) -> Result<Vec<u8>, ReadStop>
    ensures whole { IfOk result
        (λ bytes. LosesAll (S.left source.old) (S.left source.new) bytes.items) }
    ensures within { IfOk result (λ bytes. vec_len bytes ≤ READ_LIMIT) }
    ensures fault { result ≡ Err ReadStop.Fault → Rose (S.faults source.old) (S.faults source.new) }
    ensures too_long { result ≡ Err ReadStop.TooLong → HasMoreThan READ_LIMIT (S.left source.old) }
    ensures none_lost { LosesFront (S.left source.old) (S.left source.new) }
    ensures faults_kept { S.faults source.old ≤ S.faults source.new }
    ensures reads_counted { S.reads source.new ≤ S.reads source.old + 1_048_578 }
{
    let mut bytes = Vec::new(alloc);
    for _turn in 0..TURNS {
        let count = read_piece(source, &mut bytes)?;
        if count == 0 {
            return Ok(bytes);
        }
    }
    unreachable!()
}

/// Reads once, puts what came at the end of `bytes`, and answers how many came.
fn read_piece<S: Source>(source: &mut S, bytes: &mut Vec<u8>) -> Result<usize, ReadStop>
    requires { vec_len bytes.old ≤ READ_LIMIT }
    ensures moves { OnOk result
        (MovesFront (S.left source.old) (S.left source.new) bytes.old.items bytes.new.items) }
    ensures grown { IfOk result (λ n. vec_len bytes.new ≡ vec_len bytes.old + n) }
    ensures within { OnOk result (vec_len bytes.new ≤ READ_LIMIT) }
    ensures end { result ≡ Ok 0 → LosesAll (S.left source.old) (S.left source.new) [] }
    ensures fault { result ≡ Err ReadStop.Fault → Rose (S.faults source.old) (S.faults source.new) }
    ensures too_long { result ≡ Err ReadStop.TooLong →
        HasMoreThan (READ_LIMIT - vec_len bytes.old) (S.left source.old) }
    ensures none_lost { OnErr result (LosesFront (S.left source.old) (S.left source.new)) }
    ensures faults_kept { S.faults source.old ≤ S.faults source.new }
    ensures reads_counted { S.reads source.new ≤ S.reads source.old + 1 }
{
    let mut piece = [0u8; PIECE];
    let count = source.read(&mut piece)?;
    if count > READ_LIMIT - bytes.len() {
        return Err(ReadStop::TooLong);
    }
    bytes.extend_from_slice(&piece[..count])?;
    Ok(count)
}

/// Writes all of `bytes`, in order. An empty slice makes no write. After `Failed`, the sink took some
/// of the first of them.
pub fn write_all<K: Sink>(sink: &mut K, bytes: &[u8]) -> Result<(), Failed>
    ensures ok { OnOk result (Appends (K.taken sink.old) (K.taken sink.new) bytes.now) }
    ensures err { OnErr result
        ((rest : List ℕ) × AppendsUpTo (K.taken sink.old) (K.taken sink.new) bytes.now rest) }
    ensures fault { OnErr result (Rose (K.faults sink.old) (K.faults sink.new)) }
    ensures faults_kept { K.faults sink.old ≤ K.faults sink.new }
    ensures empty { bytes.now ≡ [] → sink.new ≡ sink.old }
{
    let mut rest = bytes;
    while !rest.is_empty() {
        let count = sink.write(rest)?;
        rest = &rest[count..];
    }
    Ok(())
}
