//! The tag of a life file: the node and the peer to which the file belongs.
ghost use Rattle.std.specs.Prelude.{◌≡◌, ◌+◌, ◌≤◌, length, take, drop};
ghost use Rattle.tora_life.specs.Tags.{tag_of, tag_read, word_of, long_of};

/// The link end to which a life file belongs: its node, and its peer.
#[derive(Clone, Copy, Debug, PartialEq, Eq, Hash)]
pub struct Owner {
    /// The node.
    pub node: u32,
    /// The node at the other end of the link.
    pub peer: u32,
}

/// The tag of a life file, or what the bytes after its two slots are instead.
#[derive(Clone, Copy, Debug, PartialEq, Eq, Hash)]
pub enum Tag {
    /// No tag: fewer than 32 bytes, or the second 16 are not the complement of the first 16. The file is of version 1,
    /// or was torn while it was migrated.
    Absent,
    /// A tag of another kind: complementary halves that do not begin with "TORALIF2".
    Strange,
    /// The tag of this owner.
    Of(Owner),
}

/// The eight bytes that a tag begins with: "TORALIF2".
const BEGINNING: u64 = 0x544f_5241_4c49_4632;

impl Tag {
    /// Reads the tag in 32 bytes: the beginning "TORALIF2", the node and the peer (4 bytes each, in network byte
    /// order), and then the complement of these 16 bytes. Bytes after the 32 are ignored.
    #[tactic(auto, unfolding(crate::specs::Tags::tag_read))]
    pub fn read(bytes: &[u8]) -> Tag
        ensures { result ≡ tag_read bytes.now }
    {
        if bytes.len() < 32 {
            return Tag::Absent;
        }
        let beginning = long_at(bytes, 0);
        let node = word_at(bytes, 8);
        let peer = word_at(bytes, 12);
        let beginning_back = long_at(bytes, 16);
        let node_back = word_at(bytes, 24);
        let peer_back = word_at(bytes, 28);
        if beginning_back == u64::MAX - beginning
            && node_back == u32::MAX - node
            && peer_back == u32::MAX - peer
        {
            if beginning == BEGINNING {
                Tag::Of(Owner { node, peer })
            } else {
                Tag::Strange
            }
        } else {
            Tag::Absent
        }
    }
}

/// The number in eight bytes at an offset.
#[tactic(auto, unfolding(crate::specs::Tags::long_of))]
fn long_at(bytes: &[u8], at: usize) -> u64
    requires { at + 8 ≤ length bytes.now }
    ensures { result ≡ long_of (take 8 (drop at bytes.now)) }
{
    match bytes[at..].first_chunk::<8>() {
        Some(chunk) => u64::from_be_bytes(*chunk),
        None => 0,
    }
}

/// The number in four bytes at an offset.
#[tactic(auto, unfolding(crate::specs::Tags::word_of))]
fn word_at(bytes: &[u8], at: usize) -> u32
    requires { at + 4 ≤ length bytes.now }
    ensures { result ≡ word_of (take 4 (drop at bytes.now)) }
{
    match bytes[at..].first_chunk::<4>() {
        Some(chunk) => u32::from_be_bytes(*chunk),
        None => 0,
    }
}

/// The tag of an owner in 32 bytes.
#[tactic(auto, unfolding(crate::specs::Tags::tag_of))]
pub fn tag_bytes(owner: Owner) -> [u8; 32]
    ensures { result ≡ tag_of owner }
{
    let mut tag = [0u8; 32];
    tag[..8].copy_from_slice(&BEGINNING.to_be_bytes());
    tag[8..12].copy_from_slice(&owner.node.to_be_bytes());
    tag[12..16].copy_from_slice(&owner.peer.to_be_bytes());
    tag[16..24].copy_from_slice(&(u64::MAX - BEGINNING).to_be_bytes());
    tag[24..28].copy_from_slice(&(u32::MAX - owner.node).to_be_bytes());
    tag[28..].copy_from_slice(&(u32::MAX - owner.peer).to_be_bytes());
    tag
}
