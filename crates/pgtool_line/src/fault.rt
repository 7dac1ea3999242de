//! Why a program stopped short.

ghost use Rattle.std.specs.Prelude.{◌≡◌};

use std::alloc::AllocError;

/// Why no status was answered.
#[derive(Debug, Clone, Copy, PartialEq, Eq)]
pub enum Fault {
    Memory,
    Read,
    Write,
}

impl From<AllocError> for Fault {
    ghost use Rattle.pgtool_line.specs.declared.fault.Fault.TheVariants.{Memory};

    ghost from_gives = { λ _ e. e ≡ Memory };

    fn from(_: AllocError) -> Fault {
        Fault::Memory
    }
}
