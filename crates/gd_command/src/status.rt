//! How a call of the program ended.

/// The end of a call. The exit status of the program is its number (docs/command-line.md).
#[derive(Clone, Copy, Debug, PartialEq, Eq)]
pub enum Status {
    Done = 0,
    /// An error rule holds.
    Faulty = 1,
    /// The words are no command.
    Usage = 2,
    /// The run ended in a fault.
    RunError = 3,
    OutOfTurns = 4,
    /// A list or a read of files failed.
    ReadFault = 5,
    /// A write failed.
    WriteFault = 6,
    NoMemory = 7,
    /// A limit on files, bytes or tokens is passed.
    TooLarge = 8,
    /// The main script cannot be run.
    NoMain = 9,
    BadImage = 10,
    /// The project is one that cannot be run yet.
    NotBuilt = 11,
    Refused = 12,
    SuiteFailed = 13,
}
