// Commands: a byte and operands of fixed width, which are parts of the command file.
ghost use Rattle.std.specs.Prelude.{◌≡◌, ◌<◌, length, take, drop};
ghost use Rattle.replay.specs.Grammar.{Reads, byte_of};

// A command and its operands, which are parts of the input.
#[derive(Clone, Copy, PartialEq, Eq, Debug)]
pub enum Command<'a> {
    Sheet(&'a [u8; 6]),
    Term(&'a [u8; 8]),
    Add,
    Steps(&'a [u8; 2]),
    Remainder,
    Row(&'a [u8; 1]),
    FairCopy,
    Verdict,
}

impl Command<'_> {
    // The bytes of the two commands by which more is decided than which call is made.
    pub(crate) const SHEET: u8 = 0;

    pub(crate) const STEPS: u8 = 3;

    // The byte of the command.
    pub(crate) fn byte(&self) -> u8
        ensures { result ≡ byte_of self.now }
    {
        match self {
            Command::Sheet(_) => Self::SHEET,
            Command::Term(_) => 1,
            Command::Add => 2,
            Command::Steps(_) => Self::STEPS,
            Command::Remainder => 4,
            Command::Row(_) => 5,
            Command::FairCopy => 6,
            Command::Verdict => 7,
        }
    }
}

// Why a command is not read.
#[derive(Clone, Copy, PartialEq, Eq, Debug)]
pub enum Fault {
    // The byte is no command's.
    Unknown(u8),
    // Operands are missing.
    Short(u8),
}

// The operands behind the byte of a command that has them all.
fn operands<const N: usize>(input: &[u8]) -> &[u8; N]
    requires { N < length input.now }
    ensures { result.now ≡ take N (drop 1 input.now) }
{
    input[1..].first_chunk().unwrap()
}

// The command at the front of the input, and the rest; nothing at the end of the input.
// The patterns count the bytes of the operands, which `operands` then lends.
pub fn next<'a>(input: &'a [u8]) -> Result<Option<(Command<'a>, &'a [u8])>, Fault>
    ensures { Reads input.now result }
{
    match input {
        [] => Ok(None),
        [0x00, _, _, _, _, _, _, rest @ ..] => Ok(Some((Command::Sheet(operands(input)), rest))),
        [0x01, _, _, _, _, _, _, _, _, rest @ ..] => Ok(Some((
            Command::Term(operands(input)),
            rest,
        ))),
        [0x02, rest @ ..] => Ok(Some((Command::Add, rest))),
        [0x03, _, _, rest @ ..] => Ok(Some((Command::Steps(operands(input)), rest))),
        [0x04, rest @ ..] => Ok(Some((Command::Remainder, rest))),
        [0x05, _, rest @ ..] => Ok(Some((Command::Row(operands(input)), rest))),
        [0x06, rest @ ..] => Ok(Some((Command::FairCopy, rest))),
        [0x07, rest @ ..] => Ok(Some((Command::Verdict, rest))),
        [0x00 | 0x01 | 0x03 | 0x05, ..] => Err(Fault::Short(input[0])),
        [other, ..] => Err(Fault::Unknown(*other)),
    }
}
