// What the operands of a sheet command do not name.
ghost use Rattle.std.specs.Prelude.{◌≡◌, Some as the};
ghost use Rattle.choice.specs.Unnamed.{unnamed_text};

use std::error::Error;
use std::fmt;

// The first that is missing, in the order in which they are looked for.
#[derive(Clone, Copy, PartialEq, Eq, Debug)]
pub enum Unnamed {
    // Kind and modulus name no field.
    Field,
    // The number of variables is not 1 to 6.
    Variables,
    // The code names no order.
    Order,
    // The code names no division.
    Division,
}

impl Unnamed {
    // What is missing, in words.
    pub fn describe(&self) -> &'static str
        ensures { result.now ≡ unnamed_text self.now }
    {
        match self {
            Unnamed::Field => "no such field",
            Unnamed::Variables => "not 1 to 6 variables",
            Unnamed::Order => "no such order",
            Unnamed::Division => "no such division",
        }
    }
}

impl fmt::Display for Unnamed {
    ghost output = { λ unnamed. the (unnamed_text unnamed) };

    fn fmt<W: fmt::Write>(&self, f: &mut fmt::Formatter<W>) -> fmt::Result {
        f.write_str(self.describe())
    }
}

impl Error for Unnamed {}
