//! The work of a thread.
use log::Log;
use std::snapshot::Snapshot;
use std::sync::Wait;
use std::thread::Promise;

/// The work of a thread.
pub(crate) trait Task<O> {
    /// Which results this work may return.
    ghost leaves: { Self → O → Type 0 };

    /// Does the work in the calling thread, and returns its result.
    fn run<R: Wait + Log>(self, rt: &R) -> O
        ensures { leaves self result };
}

/// The promise that a thread does this work, and returns a result that `leaves` allows.
#[derive(Drop)]
pub(crate) struct Does<T>(pub(crate) Snapshot<T>);

impl<O, T: Task<O>> Promise<O> for Does<T> {
    ghost kept_by = { λ p o. T.leaves p.0.value o };
}
