//! What the words ask for.

ghost use Rattle.std.specs.Prelude.{◌≡◌, map};
ghost use Rattle.std.specs.String.{string_bytes};
ghost use Rattle.qe_program.specs.Asked.{request_of, IsAsked};

use qe_base::OutOfMemory;
use qe_words::{Job, Mode, WordsStop, parse};
use std::alloc::Global;

/// What words ask for.
#[derive(Clone, Copy)]
pub enum Request {
    /// That the formula read is eliminated, where a block has so many nodes at most.
    Eliminate { limit: u32 },
    /// That the generated input with this number is written.
    Make { number: u32 },
    /// That the generated input with this number is eliminated, where a block has so many nodes at
    /// most, and told what came of it.
    Summary { limit: u32, number: u32 },
    /// Nothing that is done: they give no job, or one of a mode that is not served so far.
    Nothing,
}

/// What a job asks for.
fn request_of(job: Job) -> Request
    ensures { result ≡ request_of job }
{
    match job.mode {
        Mode::Eliminate => Request::Eliminate { limit: job.nodes },
        Mode::Make => Request::Make { number: job.number },
        Mode::Answers => Request::Nothing,
        Mode::Summary => Request::Summary {
            limit: job.nodes,
            number: job.number,
        },
    }
}

/// What words ask for; words that give no job ask for nothing.
pub fn asked_for(alloc: Global, words: &[String]) -> Result<Request, OutOfMemory>
    ensures { IsAsked (map string_bytes words.now) result }
{
    match parse(alloc, words) {
        Ok(job) => Ok(request_of(job)),
        Err(WordsStop::Usage) => Ok(Request::Nothing),
        Err(WordsStop::OutOfMemory) => Err(OutOfMemory),
    }
}
