ghost use Rattle.std.specs.Prelude.{◌≡◌};
ghost use Rattle.jtag_run.specs.Status.{code_of};

/// How a run ended.
#[derive(Clone, Copy, Debug, PartialEq, Eq)]
pub enum Status {
    /// The session ran to its end, and no line says an error.
    Clean,
    /// The session ran to its end, and some line says an error.
    WithErrors,
    /// The words were refused.
    Words,
    /// A file could not be read.
    File,
    /// The script was refused.
    Script,
    /// The image was refused.
    Image,
    /// A register of the chip is not as the opening of a session asks.
    Target,
    /// The wire or the net failed.
    Wire,
    /// Not all of the output could be written.
    Sink,
    /// The session was lost: the chip may have been left in the middle of a command.
    Lost,
    /// The chip met its limit of events.
    EventLimit,
    /// No memory was left before the session.
    OutOfMemory,
    /// A byte that is no sign came over the net, or stands in a recorded stream.
    BadByte,
    /// A recorded stream asks for more or fewer answers than there are.
    Answers,
}

impl Status {
    /// The exit status of the program.
    pub fn code(&self) -> u8
        ensures { result ≡ code_of self.now }
    {
        match self {
            Status::Clean => 0,
            Status::WithErrors => 1,
            Status::Words => 2,
            Status::File => 3,
            Status::Script => 4,
            Status::Image => 5,
            Status::Target => 6,
            Status::Wire => 7,
            Status::Sink => 8,
            Status::Lost => 9,
            Status::EventLimit => 10,
            Status::OutOfMemory => 11,
            Status::BadByte => 12,
            Status::Answers => 13,
        }
    }
}
