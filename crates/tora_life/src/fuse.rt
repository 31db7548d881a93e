//! A fuse for tests: some calls succeed, and then one call or all following calls fail.
ghost use Rattle.std.specs.Prelude.{◌≡◌, ◌-◌, not, Some};
ghost use Rattle.tora_life.specs.Fuse.{is_blown, after_call};

/// How many calls fail after the calls that a `Fuse` lets succeed.
#[derive(Clone, Copy, Debug, PartialEq, Eq, Hash)]
pub enum FuseMode {
    /// One call fails, and all calls after it succeed.
    Once,
    /// Every later call fails.
    Always,
}

/// Decides for each call of a device whether it succeeds. It is for devices that fail on purpose.
#[derive(Clone, Copy, Debug, PartialEq, Eq, Hash)]
pub struct Fuse {
    pub mode: FuseMode,
    /// How many calls succeed before one fails; `None` if none will fail.
    pub left: Option<u64>,
}

impl Fuse {
    /// A fuse that lets `k` calls succeed; then one call fails, or all do, by `mode`.
    pub fn new(k: u64, mode: FuseMode) -> Fuse
        ensures { result ≡ record { mode = mode; left = Some k } }
    {
        Fuse {
            mode,
            left: Some(k),
        }
    }

    /// Returns whether the next call succeeds, and counts that call.
    pub fn passes(&mut self) -> bool
        ensures answer { result ≡ not (is_blown self.old) }
        ensures left { self.new ≡ after_call self.old }
    {
        match self.left {
            None => true,
            Some(n) => {
                if n > 0 {
                    self.left = Some(n - 1);
                    return true;
                }
                match self.mode {
                    FuseMode::Once => self.left = None,
                    FuseMode::Always => {}
                }
                false
            }
        }
    }
}
