// Why no sheet was made.
ghost use Rattle.std.specs.Prelude.{◌≡◌};
ghost use Rattle.sheet.specs.declared.unmade.Unmade.TheVariants.{Memory};

use std::alloc::AllocError;

#[derive(Clone, Copy, PartialEq, Eq, Debug)]
pub enum Unmade {
    // The number of variables is not 1 to 6.
    Variables,
    // There is not enough memory. No later call asks for any.
    Memory,
}

impl From<AllocError> for Unmade {
    ghost from_gives = { λ _ unmade. unmade ≡ Memory };

    fn from(_error: AllocError) -> Unmade {
        Unmade::Memory
    }
}
