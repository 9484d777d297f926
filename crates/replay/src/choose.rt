// The making: what the sheet command names, and the commands behind it on a sheet over that.
ghost use Rattle.std.specs.Prelude.{◌≡◌, Some as the, IfOk};
ghost use Rattle.monomial.specs.Monomial.{width};
ghost use Rattle.monomial.specs.Division.{Within};
ghost use Rattle.replay.specs.Replay.{Starts, making, with_division};

use crate::play::run;
use crate::tell::{not_made, text_of};
use choice::choose::{Task, choose};
use choice::operands::Operands;
use choice::unnamed::Unnamed;
use field::Field;
use monomial::division::Division;
use monomial::order::Order;
use polynomial::ring::Ring;
use sheet::sheet::Sheet;
use sheet::unmade::Unmade;
use std::alloc::{AllocError, Global};

// The commands behind the sheet command, to be carried out on a new sheet.
#[derive(Clone, Copy)]
struct Opening<'a> {
    heap: Global,
    rest: &'a [u8],
}

impl Task for Opening<'_> {
    type Done = Result<Vec<u8>, AllocError>;

    ghost gives = { λ opening F O D n done. Within n width → IfOk done (λ text. Starts opening.rest.now (with_division F n O (the D)) text.items) };

    fn run<F: Field + Copy + Drop, O: Order + Copy + Drop, D: Division + Copy + Drop>(
        self,
        ring: Ring<F, O>,
        division: D,
    ) -> Result<Vec<u8>, AllocError> {
        match Sheet::new(self.heap, ring, division) {
            Ok(mut sheet) => run(self.heap, &mut sheet, self.rest),
            // Not where there are 1 to 6 variables.
            Err(Unmade::Variables) => text_of(self.heap, not_made(Unnamed::Variables)),
            Err(Unmade::Memory) => Err(AllocError),
        }
    }
}

// What the sheet command with these operands writes, and the commands behind it.
pub(crate) fn start(heap: Global, operands: &[u8; 6], rest: &[u8]) -> Result<Vec<u8>, AllocError>
    ensures { IfOk result (λ text. Starts rest.now (making operands.now) text.items) }
{
    match choose(Operands::new(operands), Opening { heap, rest }) {
        Ok(done) => done,
        Err(unnamed) => text_of(heap, not_made(unnamed)),
    }
}
