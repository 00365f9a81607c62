// Why a read or a write is refused.
ghost use Rattle.std.specs.Prelude.{◌≡◌};
ghost use Rattle.caja_io.specs.declared.fault.InputFault.TheVariants.{Failed as input_failed, Memory};
ghost use Rattle.caja_io.specs.declared.fault.OutputFault.TheVariants.{Failed as output_failed};

use std::alloc::AllocError;

/// One read or one write failed.
#[derive(Clone, Copy, Debug, PartialEq, Eq)]
pub struct Failed;

/// Why an input isn't read whole.
#[derive(Clone, Copy, Debug, PartialEq, Eq)]
pub enum InputFault {
    /// A read failed.
    Failed,
    /// The input has more bytes than the limit.
    TooLong,
    /// Memory ran out.
    Memory,
}

/// Why an output isn't written whole.
#[derive(Clone, Copy, Debug, PartialEq, Eq)]
pub enum OutputFault {
    /// A write failed.
    Failed,
    /// A write took nothing of a piece that isn't empty.
    NoRoom,
}

impl From<Failed> for InputFault {
    ghost from_gives = { λ _ fault. fault ≡ input_failed };

    fn from(_: Failed) -> InputFault {
        InputFault::Failed
    }
}

impl From<AllocError> for InputFault {
    ghost from_gives = { λ _ fault. fault ≡ Memory };

    fn from(_: AllocError) -> InputFault {
        InputFault::Memory
    }
}

impl From<Failed> for OutputFault {
    ghost from_gives = { λ _ fault. fault ≡ output_failed };

    fn from(_: Failed) -> OutputFault {
        OutputFault::Failed
    }
}
