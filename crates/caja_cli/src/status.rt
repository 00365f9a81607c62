// How a call of the program ended.

ghost use Rattle.std.specs.Prelude.{◌≡◌};
ghost use Rattle.caja_cli.specs.Codes.{code_of};

/// How a call of the program ended.
#[derive(Clone, Copy, Debug, PartialEq, Eq)]
pub enum Status {
    /// The whole output was written; where the command runs a page, that came to its end.
    Done,
    /// The words are no command.
    Usage,
    /// A stage refused the input.
    Refused,
    /// A read failed.
    ReadFault,
    /// A write failed.
    WriteFault,
    /// Memory is wanting.
    Memory,
    /// The page ended by a number that is no whole number in range.
    Number,
    /// The page ended by too many open calls, or by too deep a conversion.
    Depth,
    /// The page spent its steps.
    Steps,
    /// A write took nothing.
    NoRoom,
    /// The page ended by a conversion that would run code of a text.
    Convert,
}

impl Status {
    /// The exit status of the program.
    pub fn code(self) -> u8
        ensures { result ≡ code_of self }
    {
        match self {
            Status::Done => 0,
            Status::Usage => 2,
            Status::Refused => 3,
            Status::ReadFault => 4,
            Status::WriteFault => 5,
            Status::Memory => 6,
            Status::Number => 7,
            Status::Depth => 8,
            Status::Steps => 9,
            Status::NoRoom => 10,
            Status::Convert => 11,
        }
    }
}
