//! Why a packet is not submitted.
ghost use Rattle.std.specs.Prelude.{◌≡◌};
ghost use Rattle.tora_arq.specs.Lives.{submit_error_number};

use std::fmt;
use thiserror::Error;
use tora_packet::Packet;

/// Why a packet is not submitted.
#[derive(Clone, Copy, Debug, PartialEq, Eq, Hash, Error)]
pub enum SubmitError {
    /// The end is not bound to this session. Nothing changes, and the packet is returned.
    WrongLife(Packet),
    /// `QUEUE_PLACES` (256) packets are not acknowledged. The call has ended the session, and the packet is lost.
    Full,
    /// 2^62 packets were submitted in this session. The call has ended the session, and the packet is lost.
    Spent,
}

/// The cause in words.
impl fmt::Display for SubmitError {
    ghost use Rattle.std.specs.Prelude.{Some};
    ghost use Rattle.tora_arq.specs.Texts.{written_submit_error};

    ghost output = { λ e. Some (written_submit_error e) };

    fn fmt<W: fmt::Write>(&self, f: &mut fmt::Formatter<W>) -> fmt::Result {
        match self {
            SubmitError::WrongLife(_) => f.write_str("the life is not the bound one"),
            SubmitError::Full => f.write_str("the send queue is full"),
            SubmitError::Spent => f.write_str("the numbers of packets are used up"),
        }
    }
}

impl SubmitError {
    /// The number of the error: 1 `WrongLife`, 2 `Full`, 3 `Spent`.
    pub fn number(self) -> u8
        ensures { result ≡ submit_error_number self }
    {
        match self {
            SubmitError::WrongLife(_) => 1,
            SubmitError::Full => 2,
            SubmitError::Spent => 3,
        }
    }
}
