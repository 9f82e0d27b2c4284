use lines::End;

/// How a run of the program ended.
#[derive(Clone, Copy, Debug, PartialEq, Eq)]
pub enum Status {
    /// The input was read to its end, or a line ended the session.
    Done,
    /// The words are no command line; the usage line was said.
    Usage,
    /// The file cannot be served; a line that says why was said.
    Refused,
    /// The input failed.
    TakeFault,
    /// The output failed.
    SayFault,
    /// Memory was wanting, before anything was said.
    Memory,
    /// More than 2^40 bytes came.
    TooMuch,
    /// The file could not be attached or read, before anything was said.
    DiskFault,
}

impl Status {
    ghost use Rattle.std.specs.Prelude.{◌≡◌};
    ghost use Rattle.shell.specs.Statuses.{code_of};

    /// The exit status of the program.
    pub fn code(self) -> u8
        ensures { result ≡ code_of self }
    {
        match self {
            Status::Done => 0,
            Status::Usage => 2,
            Status::Refused => 3,
            Status::TakeFault => 4,
            Status::SayFault => 5,
            Status::Memory => 6,
            Status::TooMuch => 7,
            Status::DiskFault => 8,
        }
    }
}

impl From<End> for Status {
    ghost use Rattle.std.specs.Prelude.{◌≡◌};
    ghost use Rattle.shell.specs.Statuses.{status_of};

    ghost from_gives = { λ end status. status ≡ status_of end };

    fn from(end: End) -> Status {
        match end {
            End::Done => Status::Done,
            End::TakeFault => Status::TakeFault,
            End::SayFault => Status::SayFault,
            End::TooMuch => Status::TooMuch,
        }
    }
}
