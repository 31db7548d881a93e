//! The times of a link end.

/// The times of a link end. `LinkEnd::new` and `GrowingEnd::new` require that each is at least 1.
#[derive(Clone, Copy, Debug, PartialEq, Eq, Hash)]
pub struct Times {
    /// How many ticks of 100 ms after a HELLO the next one is due.
    pub hello: u64,
    /// A bound session ends after this many ticks of 100 ms without a frame of the peer in it.
    pub silent: u64,
    /// How many ticks of 100 ms after a try a packet is transmitted again, or is given up after its last try.
    pub retry: u64,
    /// How many times a packet is transmitted before it is given up.
    pub tries: u64,
}

impl Times {
    /// The times that the program uses unless others are set: a HELLO each second, a session ends after 5 s without a
    /// frame, 0.5 s between tries, 8 tries.
    pub const STANDARD: Times = Times {
        hello: 10,
        silent: 50,
        retry: 5,
        tries: 8,
    };
}

/// The default is `Times::STANDARD`.
impl Default for Times {
    ghost use Rattle.std.specs.Prelude.{◌≡◌};
    ghost use Rattle.tora_arq.specs.declared.times.TheConstants.Times.{STANDARD};

    ghost is_default = { λ t. t ≡ STANDARD };

    fn default() -> Times {
        Times::STANDARD
    }
}
