//! Items, outbound messages and results as log lines show them.
use crate::{Answer, Cargo, Item, Status, What};
use std::fmt;

/// A word, and then what the variant carries: the session, the packet, the reason, the destination or the neighbour. A
/// status prints as `json` or `watch`.
impl fmt::Display for What {
    ghost use Rattle.std.specs.Prelude.{Some};
    ghost use Rattle.tora_seat.specs.Texts.{written_what};

    ghost output = { λ what. Some (written_what what) };

    fn fmt<W: fmt::Write>(&self, f: &mut fmt::Formatter<W>) -> fmt::Result {
        match self {
            What::Up(life) => write!(f, "up {life}"),
            What::Packet(life, packet) => write!(f, "packet {life} {packet}"),
            What::Down(life, reason) => write!(f, "down {life} {reason}"),
            What::Beat => f.write_str("beat"),
            What::Need(d) => {
                let d = *d;
                write!(f, "need {d}")
            }
            What::Cut(k) => {
                let k = *k;
                write!(f, "cut {k}")
            }
            What::Show => f.write_str("show"),
            What::Status(status) => match status {
                Status::Json => f.write_str("json"),
                Status::Watch => f.write_str("watch"),
            },
            What::Quit => f.write_str("quit"),
        }
    }
}

/// The seat, the number, the tick, and the content.
impl fmt::Display for Item {
    ghost use Rattle.std.specs.Prelude.{Some};
    ghost use Rattle.tora_seat.specs.Texts.{written_item};

    ghost output = { λ item. Some (written_item item) };

    fn fmt<W: fmt::Write>(&self, f: &mut fmt::Formatter<W>) -> fmt::Result {
        let seat = self.seat;
        let number = self.number;
        let now = self.now;
        let what = &self.what;
        write!(f, "{seat} {number} {now} {what}")
    }
}

/// `packet`, the session and the packet; or `cut` and the session.
impl fmt::Display for Cargo {
    ghost use Rattle.std.specs.Prelude.{Some};
    ghost use Rattle.tora_seat.specs.Texts.{written_cargo};

    ghost output = { λ cargo. Some (written_cargo cargo) };

    fn fmt<W: fmt::Write>(&self, f: &mut fmt::Formatter<W>) -> fmt::Result {
        match self {
            Cargo::Packet(life, packet) => write!(f, "packet {life} {packet}"),
            Cargo::Cut(life) => write!(f, "cut {life}"),
        }
    }
}

/// One word; for a refusal `refused:` and the cause.
impl fmt::Display for Answer {
    ghost use Rattle.std.specs.Prelude.{Some};
    ghost use Rattle.tora_seat.specs.Texts.{written_answer};

    ghost output = { λ answer. Some (written_answer answer) };

    fn fmt<W: fmt::Write>(&self, f: &mut fmt::Formatter<W>) -> fmt::Result {
        match self {
            Answer::Nothing => f.write_str("nothing"),
            Answer::Refused(error) => write!(f, "refused: {error}"),
            Answer::Show => f.write_str("show"),
            Answer::Quit => f.write_str("quit"),
        }
    }
}
