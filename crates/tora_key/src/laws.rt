//! What is proved about tags, for all keys and all messages.
ghost use Rattle.std.specs.Prelude.{◌≡◌, List, ℕ, map, filter_map, All, Contains, IsTrue};
ghost use Rattle.tora_key.specs.Sealing.{sealed, is_authentic, opened, IsPart};

/// A link with a key passes on only tagged messages.
///
/// `through`: tagged messages pass unchanged and in order. `tagged`: the messages that pass, each with its tag appended
/// again, are a subsequence of what arrived. `unforged`: if nobody but the tagger of `sent` makes authentic bytes, each
/// message that passes is one of `sent`. A message may pass several times, since a tag does not show repetition.
pub fn keyed_links_give_what_was_tagged()
    ensures through { (key : List ℕ) (messages : List (List ℕ)) → filter_map (opened key) (map (sealed key) messages)
        ≡ messages }
    ensures tagged { (key : List ℕ) (came : List (List ℕ)) → IsPart (map (sealed key) (filter_map (opened key) came))
        came }
    ensures unforged { (key : List ℕ) (sent came : List (List ℕ))
        → All (λ bytes. IsTrue (is_authentic key bytes) → Contains (map (sealed key) sent) bytes) came
        → All (Contains sent) (filter_map (opened key) came) }
{}
