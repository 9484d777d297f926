// A problem: a sheet's operands, its generators, and a polynomial whose remainder is taken, as a command file gives them.
use anyhow::anyhow;
use choice::operands::Operands;
use polynomial::term::Term;
use replay::command::{Command, next};
use std::alloc::{AllocError, Global};
use std::mem;

#[derive(Drop)]
pub(crate) struct Problem {
    pub(crate) operands: Operands,
    pub(crate) generators: Vec<Vec<Term>>,
    pub(crate) probe: Vec<Term>,
}

impl Problem {
    // A problem without polynomials. The operands of no sheet are refused when a sheet is to be made of them.
    fn new(heap: Global) -> Problem {
        Problem {
            operands: Operands::new(&[0; 6]),
            generators: Vec::new(heap),
            probe: Vec::new(heap),
        }
    }

    // One command more, where the terms since the last polynomial are in `gathered`. The commands that say nothing of the
    // problem are passed over.
    fn take_command(
        &mut self,
        gathered: &mut Vec<Term>,
        command: Command<'_>,
    ) -> Result<(), AllocError> {
        match command {
            Command::Sheet(operands) => self.operands = Operands::new(operands),
            Command::Term(operands) => gathered.push(Term::from_bytes(operands))?,
            Command::Add => self.generators.push(mem::try_take(gathered)?)?,
            Command::Remainder => self.probe = mem::try_take(gathered)?,
            _ => {}
        }
        Ok(())
    }

    // The problem that a command file poses.
    pub(crate) fn read(heap: Global, input: &[u8]) -> anyhow::Result<Problem> {
        let mut problem = Problem::new(heap);
        let mut gathered = Vec::new(heap);
        let mut rest = input;
        while let Some((command, after)) = next(rest).map_err(|_| anyhow!(
            "a problem has a command that cannot be read"
        ))? {
            problem.take_command(&mut gathered, command)?;
            rest = after;
        }
        Ok(problem)
    }
}
