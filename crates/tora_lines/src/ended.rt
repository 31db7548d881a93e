use thiserror::Error;

/// How the processing of a file of lines ended.
#[derive(Clone, Copy, Debug, PartialEq, Eq)]
pub enum Ended {
    /// The whole input was processed.
    Whole,
    /// The line with this number, counted from 1, is the first fault. If the input ended too early, this may be the
    /// number of the line that would come next.
    Fault(u64),
}

/// Why the processing of a file of lines failed. A fault in the file is no such error, but `Ended::Fault`.
#[derive(Clone, Copy, Debug, PartialEq, Eq, Error)]
pub enum ReplayError {
    /// Memory ran out.
    #[error("memory was refused")]
    Memory,
    /// A read failed with an error other than `Interrupted`, or 2^32 reads, interrupted ones included, did not reach
    /// the end of the input.
    #[error("the input could not be read")]
    Read,
    /// A write or a flush failed.
    #[error("the output could not be written")]
    Write,
}
