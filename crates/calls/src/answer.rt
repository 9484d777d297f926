ghost use Rattle.std.specs.Prelude.{◌≡◌};
ghost use Rattle.calls.specs.Told.{judgement};

// What a granted step did.
#[derive(Clone, Copy, PartialEq, Eq, Debug)]
pub enum Step {
    // Every pair is marked, so there is nothing to do.
    Closed,
    // The pair's prolongation reduced to zero.
    Marked,
    // What was left of it is a new row.
    Appended,
}

// The most bytes of a fair copy: 32 rows of 40 terms of 9 bytes, and a closing byte each.
pub const MOST_COPY_BYTES: usize = 11552;

// How many rows a fair copy has, and how many bytes were written.
#[derive(Clone, Copy, PartialEq, Eq, Debug)]
pub struct Copied {
    pub rows: usize,
    pub bytes: usize,
}

// What a closed sheet tells of its rules: whether 1 lies in their ideal.
#[derive(Clone, Copy, PartialEq, Eq, Debug)]
pub enum Verdict {
    // 1 does not lie in the ideal. That something meets all the rules is not said.
    Possible,
    // 1 lies in the ideal, so nothing meets all the rules.
    Impossible,
}

impl Verdict {
    // The number by which the formats name the verdict.
    pub fn number(&self) -> usize
        ensures { result ≡ judgement self.now }
    {
        match self {
            Verdict::Possible => 0,
            Verdict::Impossible => 1,
        }
    }
}
