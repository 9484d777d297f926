// Why the commands stop before their end.
ghost use Rattle.std.specs.Prelude.{◌≡◌};
ghost use Rattle.replay.specs.declared.stop.Stop.TheVariants.{Unread};
ghost use Rattle.replay.specs.Grammar.{stop_byte, stop_number};

use crate::command::Fault;

// Why a command is not carried out.
#[derive(Clone, Copy, PartialEq, Eq, Debug)]
pub(crate) enum Stop {
    Unread(Fault),
    // It is the first command and makes no sheet, or a later one and makes a sheet.
    Misplaced(u8),
}

impl Stop {
    // The byte of the command.
    pub(crate) fn byte(&self) -> u8
        ensures { result ≡ stop_byte self.now }
    {
        match *self {
            Stop::Unread(Fault::Unknown(byte) | Fault::Short(byte)) | Stop::Misplaced(byte) => byte,
        }
    }

    // The number by which the formats name the refusal.
    pub(crate) fn number(&self) -> u8
        ensures { result ≡ stop_number self.now }
    {
        match self {
            Stop::Unread(Fault::Unknown(_)) => 15,
            Stop::Unread(Fault::Short(_)) => 16,
            Stop::Misplaced(_) => 17,
        }
    }
}

impl From<Fault> for Stop {
    ghost from_gives = { λ fault stop. stop ≡ Unread fault };

    fn from(fault: Fault) -> Stop {
        Stop::Unread(fault)
    }
}
