//! The top call.

ghost use Rattle.std.specs.Prelude.{◌≡◌, ◌⊎◌, map, ℕ};
ghost use Rattle.std.specs.String.{string_bytes};
ghost use Rattle.qe_program.specs.declared.asked.Request.TheVariants.{Eliminate, Make, Summary};
ghost use Rattle.qe_program.specs.Asked.{Asks, ReadsNothing};
ghost use Rattle.qe_program.specs.Headline.{Headline, Writes};
ghost use Rattle.qe_program.specs.Exact.{Exact, Constructive};
ghost use Rattle.qe_program.specs.Made.{IsDone};
ghost use Rattle.qe_program.specs.Causes.{Causes};

use crate::asked::{Request, asked_for};
use crate::reply::{deliver, made, reply_to, too_long, usage};
use crate::status::Status;
use crate::summary::summarized;
use qe_base::{ReadStop, Sink, Source, read_all};
use std::alloc::Global;

/// Does all that the program does, with one worker. The words, which are those of the command line
/// without the program's name, say what it is: to read an input from the source, and to write the
/// answer, or the line of its refusal, to the sink; or to read nothing, and to write a generated
/// input, or what comes of it.
///
/// What stands before decides: the words, the reading, the length, the first fault of the input, the
/// size of its prenex form, the blocks from the innermost, and the writing.
pub fn run_alone<S: Source, K: Sink>(
    alloc: Global,
    words: &[String],
    source: &mut S,
    sink: &mut K,
) -> Status
    // Where the words ask for elimination, at status 0 the text of a formula was written that has no
    // quantifier, is true exactly where the formula read holds, and false exactly where that does not.
    ensures headline { (limit : ℕ) → Asks (map string_bytes words.now) (Eliminate limit)
        → result ≡ Status.Ok
        → Writes (S.left source.old) (K.taken sink.old) (K.taken sink.new) Headline }

    // It is the formula that elimination gives, and no block has more nodes than the limit.
    ensures exact { (limit : ℕ) → Asks (map string_bytes words.now) (Eliminate limit)
        → result ≡ Status.Ok
        → Writes (S.left source.old) (K.taken sink.old) (K.taken sink.new) (Exact limit) }

    // To one who reads proofs as programs: truth and falsity pass to the formula written, and back
    // where what follows the outer quantifiers and negations of the one read is decided.
    ensures constructive { (limit : ℕ) → Asks (map string_bytes words.now) (Eliminate limit)
        → result ≡ Status.Ok
        → Writes (S.left source.old) (K.taken sink.old) (K.taken sink.new) Constructive }

    // Words that ask for a generated input have it written; nothing but the sink and the memory can
    // come in between.
    ensures made { (number : ℕ) → Asks (map string_bytes words.now) (Make number)
        → IsDone (Make number) result (K.taken sink.old) (K.taken sink.new) }

    // Words that ask what comes of a generated input are told it, or that a block has more nodes than
    // the limit.
    ensures summary { (limit number : ℕ) → Asks (map string_bytes words.now) (Summary limit number)
        → IsDone (Summary limit number) result (K.taken sink.old) (K.taken sink.new) }

    // Each status comes only for its cause, and where there is no cause for another the answer is written.
    ensures causes { Causes
        (record {
          words = map string_bytes words.now;
          left = S.left source.old;
          left_after = S.left source.new;
          read_faults = S.faults source.old;
          read_faults_after = S.faults source.new;
          taken = K.taken sink.old;
          taken_after = K.taken sink.new;
          write_faults = K.faults sink.old;
          write_faults_after = K.faults sink.new;
        })
        result }

    // Words that do not ask for elimination leave the source as it was.
    ensures source_kept { ReadsNothing (map string_bytes words.now) → source.new ≡ source.old }

    // Where the input cannot be read, or memory runs out, the sink is as it was.
    ensures sink_kept { (result ≡ Status.ReadFault) ⊎ (result ≡ Status.OutOfMemory) →
        sink.new ≡ sink.old }
{
    let limit = match asked_for(alloc, words) {
        Ok(Request::Eliminate { limit }) => limit,
        Ok(Request::Make { number }) => return deliver(sink, made(alloc, number)),
        Ok(Request::Summary { limit, number }) => {
            return deliver(sink, summarized(alloc, number, limit));
        }
        Ok(Request::Nothing) => return deliver(sink, usage(alloc)),
        Err(_) => return Status::OutOfMemory,
    };
    match read_all(alloc, source) {
        Ok(bytes) => deliver(sink, reply_to(alloc, &bytes, limit)),
        Err(ReadStop::TooLong) => deliver(sink, too_long(alloc)),
        Err(ReadStop::Fault) => Status::ReadFault,
        Err(ReadStop::OutOfMemory) => Status::OutOfMemory,
    }
}
