// The records of a stored table: a row's terms, closed by 02.
ghost use Rattle.std.specs.Prelude.{◌≡◌};
ghost use Rattle.stored.specs.Record.{ReadsRecord, WithinFile, fault_of};

use crate::fault::{Fault, Reason};
use crate::rest::Rest;
use polynomial::bytes::{NoRun, read_run};
use polynomial::term::Term;
use std::alloc::Global;

// What is wrong where no run of terms stands at that offset. No `From`: the offset is needed too.
fn run_fault(why: NoRun, offset: usize) -> Fault
    requires { WithinFile why offset }
    ensures { result ≡ fault_of why offset }
{
    match why {
        NoRun::Cut(at) => Fault::Bad(Reason::CutTerm, offset + at),
        NoRun::Memory => Fault::Memory,
    }
}

// The terms of the record at the front, and what is left of the file behind it.
pub(crate) fn read_record(heap: Global, rest: Rest<'_>) -> Result<(Vec<Term>, Rest<'_>), Fault>
    ensures { ReadsRecord rest.entry result }
{
    let (terms, end) = read_run(heap, rest.bytes).map_err(|why| run_fault(why, rest.offset))?;
    let offset = rest.offset + (rest.bytes.len() - end.len());
    match end {
        [0x02, bytes @ ..] => {
            let behind = Rest {
                bytes,
                offset: offset + 1,
            };
            Ok((terms, behind))
        }
        [] => Err(Fault::Bad(Reason::OpenRecord, offset)),
        [_, ..] => Err(Fault::Bad(Reason::OtherByte, offset)),
    }
}
