// The operands of a sheet command.
ghost use Rattle.std.specs.Prelude.{◌≡◌};
ghost use Rattle.choice.specs.Choice.{operands_of};

// How many bytes the command takes.
pub const SHEET_BYTES: usize = 7;

// They are numbers here, as in the file; `choose` makes types of them.
#[derive(Clone, Copy, PartialEq, Eq, Debug)]
pub struct Operands {
    pub kind: u8,
    pub modulus: u16,
    pub variables: u8,
    pub order: u8,
    pub division: u8,
}

impl Operands {
    // The operands that the six bytes behind the command's own tell. The modulus has its high byte first.
    pub fn new(bytes: &[u8; 6]) -> Operands
        ensures { result ≡ operands_of bytes.now }
    {
        let [kind, high, low, variables, order, division] = *bytes;
        Operands {
            kind,
            modulus: u16::from_be_bytes([high, low]),
            variables,
            order,
            division,
        }
    }
}
