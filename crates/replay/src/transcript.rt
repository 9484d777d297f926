// A whole command file and its transcript.
ghost use Rattle.std.specs.Prelude.{◌≡◌, take, IfOk};
ghost use Rattle.involutive.specs.Complete.{CompleteTables, Verdict as VerdictTold};
ghost use Rattle.involutive.specs.Examples.{NotEmpty};
ghost use Rattle.involutive.specs.Facts.{FactsHold};
ghost use Rattle.involutive.specs.Once.{OneAnswerEach, OneState};
ghost use Rattle.involutive.specs.Sound.{SoundnessKept};
ghost use Rattle.replay.specs.Replay.{Transcript, OneTranscript, most_input};

use crate::choose::start;
use crate::command::{Command, next};
use crate::stop::Stop;
use crate::tell::{refused, text_of};
use std::alloc::{AllocError, Global};

// The most bytes of a command file that are read.
pub const MOST_INPUT: usize = 60_000;

// The first command makes the sheet; any other is refused there.
fn write(heap: Global, input: &[u8]) -> Result<Vec<u8>, AllocError>
    ensures { IfOk result (λ text. Transcript input.now text.items) }
{
    match next(input) {
        Ok(None) => Ok(Vec::new(heap)),
        Ok(Some((command, rest))) => match command {
            Command::Sheet(bytes) => start(heap, bytes, rest),
            _ => text_of(heap, refused(0, Stop::Misplaced(command.byte()))),
        },
        Err(fault) => text_of(heap, refused(0, fault.into())),
    }
}

// The transcript of a command file, of which the first 60,000 bytes are read; only want of memory keeps it from being made. The
// other clauses are what a reader of a transcript may rely on: a file has one transcript at most; tables are complete; the
// verdict tells whether 1 lies in the ideal; every log leaves a sound sheet; each call has one answer; a log determines its sheet
// and the generators that were accepted; the worked cases come out as listed; and what all this speaks of exists.
pub fn transcript(heap: Global, input: &[u8]) -> Result<Vec<u8>, AllocError>
    ensures transcript { IfOk result (λ out. Transcript (take most_input input.now) out.items) }
    ensures one { OneTranscript }
    ensures complete { CompleteTables }
    ensures verdict { VerdictTold }
    ensures sound { SoundnessKept }
    ensures answers { OneAnswerEach }
    ensures states { OneState }
    ensures facts { FactsHold }
    ensures examples { NotEmpty }
{
    write(heap, &input[..MOST_INPUT.min(input.len())])
}
