ghost use Rattle.std.specs.Prelude.{◌≡◌};

/// How the program ends.
#[derive(Clone, Copy, Debug, PartialEq, Eq)]
pub enum Status {
    /// The command was done.
    Done,
    /// The input was refused.
    Refused,
    /// The words aren't those of a command.
    Usage,
    /// A read of the input failed.
    ReadFault,
    /// A write failed.
    WriteFault,
    /// There was no memory.
    Memory,
}

impl Status {
    ghost use Rattle.mig_tool_report.specs.Outcome.{exit_code};

    /// The exit code of the program: 0 to 5 in the order of the variants.
    pub fn code(self) -> u8
        ensures { result ≡ exit_code self }
    {
        self as u8
    }
}
