//! Why five parts are not a height.
ghost use Rattle.std.specs.Prelude.{◌≡◌};
ghost use Rattle.tora_height.specs.HeightErrors.{height_error_number};

use thiserror::Error;

/// Why five parts are not a height, in the order of the checks.
#[derive(Clone, Copy, Debug, PartialEq, Eq, Hash, Error)]
pub enum HeightError {
    /// `tau` is above 2^62.
    #[error("tau is above 2^62")]
    Tau,
    /// `delta` is not within -2^30 to 2^30.
    #[error("delta is not within -2^30 to 2^30")]
    Delta,
    /// `r` is above 1, exactly one of `tau` and `oid` is 0, or `delta` is negative at level (0,0,0).
    #[error("the parts are no reference level, or delta is negative at level (0,0,0)")]
    Level,
    /// `id` is 0.
    #[error("id is 0")]
    Id,
}

impl HeightError {
    /// The number of the error: 1 `Tau`, 2 `Delta`, 3 `Level`, 4 `Id`.
    pub fn number(self) -> u8
        ensures { result ≡ height_error_number self }
    {
        match self {
            HeightError::Tau => 1,
            HeightError::Delta => 2,
            HeightError::Level => 3,
            HeightError::Id => 4,
        }
    }
}
