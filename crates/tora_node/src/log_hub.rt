//! A hub that logs the sessions of its link.
use log::{Log, info};
use std::fmt::Display;
use std::sync::Wait;
use tora_height::Id;
use tora_lane::{Cargo, Gone, What};
use tora_neighbour::Hub;

/// A wrapper of a hub that logs each session of the link that begins or ends.
#[derive(Drop)]
pub struct LogHub<L, H> {
    /// The log.
    pub log: L,
    /// The neighbour.
    pub peer: Id,
    /// The wrapped hub.
    pub hub: H,
}

impl<L: Log, H: Hub> LogHub<L, H> {
    /// Logs `link K up OWN PEER` for a session that begins, with its two numbers, or `link K down N` for one that
    /// ended, with the number of the reason. For any other content of an item nothing happens.
    fn tell(&self, what: &What) {
        match what {
            What::Up(life) => {
                let (own, theirs) = (life.own, life.peer);
                self.note(format_args!("up {own} {theirs}"));
            }
            What::Down(_, reason) => {
                let number = reason.number();
                self.note(format_args!("down {number}"));
            }
            _ => {}
        }
    }

    /// Logs `link K WHAT` as information, where K is the neighbour.
    fn note<D: Display + Drop>(&self, what: D) {
        let peer = self.peer;
        info!(&self.log; "link {peer} {what}");
    }
}

impl<L: Log, H: Hub> Hub for LogHub<L, H> {
    ghost puts = { λ h. H.puts h.hub };

    ghost takes = { λ h. H.takes h.hub };

    ghost gone = { λ h. H.gone h.hub };

    ghost did_put = { λ h now what answer after. H.did_put h.hub now what answer after.hub };

    ghost did_take = { λ h answer after. H.did_take h.hub answer after.hub };

    fn put<R: Wait>(&mut self, rt: &R, now: u64, what: What) -> Result<(), Gone> {
        self.hub.put(rt, now, what)?;
        self.tell(&what);
        Ok(())
    }

    fn take<R: Wait>(&mut self, rt: &R) -> Option<Cargo> {
        self.hub.take(rt)
    }
}
