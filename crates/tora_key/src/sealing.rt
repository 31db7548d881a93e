//! Tagged messages.
ghost use Rattle.std.specs.Prelude.{◌≡◌, ◌+◌, ◌≤◌, length, take, drop, option_map};
ghost use Rattle.tora_key.specs.Hmac.{tag_of};
ghost use Rattle.tora_key.specs.Sealing.{sealed, is_authentic, opened};

use crate::key::{Key, TAG, is_same};

impl Key {
    /// Writes a message and then its tag to the front of `room`, which has at least 16 bytes more than the message.
    /// Returns the length of both together in bytes.
    #[tactic(auto, unfolding(crate::specs::Sealing::sealed))]
    pub fn seal(&self, message: &[u8], room: &mut [u8]) -> usize
        requires { length message.now + TAG ≤ length room.old }
        ensures count { result ≡ length message.now + TAG }
        ensures sealed { take result room.new ≡ sealed self.now message.now }
    {
        let tag = self.tag(message);
        let end = message.len();
        room[..end].copy_from_slice(message);
        room[end..end + TAG].copy_from_slice(&tag);
        end + TAG
    }

    /// Whether the last 16 bytes are the tag of the bytes before them; `false` if there are fewer than 16.
    #[tactic(auto, unfolding(crate::specs::Sealing::is_authentic))]
    pub fn is_authentic(&self, bytes: &[u8]) -> bool
        ensures { result ≡ is_authentic self.now bytes.now }
    {
        if bytes.len() < TAG {
            return false;
        }
        let end = bytes.len() - TAG;
        is_same(&bytes[end..], &self.tag(&bytes[..end]))
    }

    /// The message: the bytes without the last 16. `None` if the bytes are not authentic.
    pub fn open<'a>(&self, bytes: &'a [u8]) -> Option<&'a [u8]>
        ensures { option_map (λ message. message.now) result ≡ opened self.now bytes.now }
    {
        if self.is_authentic(bytes) {
            Some(&bytes[..bytes.len().saturating_sub(TAG)])
        } else {
            None
        }
    }
}
