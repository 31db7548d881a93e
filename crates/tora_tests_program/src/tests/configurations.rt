//! The worked configuration of a node, and each way in which a configuration is refused.
use reading::Wanted::{
    Accepted, Erases, NoToml, Peers, Refused, Says, TooMany, UnknownKey, Worked,
};
use reading::{Wanted, each_is_read, each_is_read_or_wants_memory, says};
use tora_commands::configuration::*;
use tora_core::Erasure;

mod reading;

const WORKED: &str =
    "node = 1\ndests = [4]\nlife_dir = \"n1\"\n\n[[link]]\npeer = 2\nlocal = 4012\nremote = 4021\n";

const HEAD: &str = "node = 1\ndests = [4]\nlife_dir = \"n1\"\n";

const LINK: &str = "[[link]]\npeer = 2\nlocal = 4012\nremote = 4021\n";

/// The beginning of a configuration with no destination and an empty name of the directory for life files.
const BARE: &str = "node = 1\ndests = []\nlife_dir = \"\"\n";

const ACCEPTED_AND_REFUSED: &[(&[&str], Wanted)] = &[
    (&[WORKED], Worked),
    (
        &[HEAD, "[[link]]\nlocal = 4012\nremote = 4021\n"],
        Refused(Place::Peer(1), Reason::Missing),
    ),
    (
        &["name = \"one\"\n", WORKED],
        Says("`name` is no key of a configuration"),
    ),
    (
        &[
            HEAD,
            LINK,
            "[[link]]\npeer = 2\nlocal = 4013\nremote = 4031\n",
        ],
        Refused(Place::Peer(2), Reason::Repeated),
    ),
    (
        &[HEAD, "[[link]]\npeer = 2\nlocal = 0\nremote = 4021\n"],
        Refused(Place::Local(1), Reason::NoPort),
    ),
    (
        &[
            HEAD,
            "[[link]]\npeer = 2\nlocal = \"127.0.0.1:4012\"\nremote = \"[::1]:4021\"\nkey_file = \"k\"\n",
        ],
        Worked,
    ),
    (
        &["node = 2\ndests = [4]\nlife_dir = \"n1\"\n", LINK],
        Refused(Place::Peer(1), Reason::OwnId),
    ),
    (
        &[HEAD, "erasure = \"remembered\"\n", LINK],
        Erases(Erasure::Remembered),
    ),
    (
        &[HEAD, "erasure = \"plain\"\n", LINK],
        Erases(Erasure::Plain),
    ),
    (&["node = = 1\n"], NoToml),
];

#[test]
fn configurations_accepted_and_refused(rt: HostRuntime) {
    each_is_read(&rt, rt.alloc(), ACCEPTED_AND_REFUSED);
}

const BY_PEER: &[(&[&str], Wanted)] = &[(
    &[
        HEAD,
        "[[link]]\npeer = 9\nlocal = 1\nremote = 65535\n",
        "[[link]]\npeer = 3\nlocal = 2\nremote = 65535\n",
        "[[link]]\npeer = 4294967295\nlocal = 65535\nremote = 1\n",
    ],
    Peers(&[3, 9, 4294967295]),
)];

#[test]
fn links_are_by_ascending_peer(rt: HostRuntime) {
    each_is_read(&rt, rt.alloc(), BY_PEER);
}

const KEYS_OF_A_NODE: &[(&[&str], Wanted)] = &[
    (&[""], Refused(Place::Node, Reason::Missing)),
    (&["node = \"1\"\n"], Refused(Place::Node, Reason::NoNumber)),
    (&["node = 1.0\n"], Refused(Place::Node, Reason::NoNumber)),
    (&["node = [1]\n"], Refused(Place::Node, Reason::NoNumber)),
    (&["node = true\n"], Refused(Place::Node, Reason::NoNumber)),
    (&["node = 0\n"], Refused(Place::Node, Reason::NoId)),
    (&["node = -1\n"], Refused(Place::Node, Reason::NoId)),
    (&["node = 4294967296\n"], Refused(Place::Node, Reason::NoId)),
    (&["node = 1\n"], Refused(Place::Dests, Reason::Missing)),
    (
        &["node = 1\ndests = 4\n"],
        Refused(Place::Dests, Reason::NoList),
    ),
    (
        &["node = 1\ndests = [\"4\"]\n"],
        Refused(Place::Dest(1), Reason::NoNumber),
    ),
    (
        &["node = 1\ndests = [4, 0]\n"],
        Refused(Place::Dest(2), Reason::NoId),
    ),
    (
        &["node = 1\ndests = [4, 4294967296]\n"],
        Refused(Place::Dest(2), Reason::NoId),
    ),
    (
        &["node = 1\ndests = [4, 5, 4]\n"],
        Refused(Place::Dest(3), Reason::Repeated),
    ),
    (
        &["node = 1\ndests = []\n"],
        Refused(Place::LifeDir, Reason::Missing),
    ),
    (
        &["node = 1\ndests = [4]\nlife_dir = 1\n"],
        Refused(Place::LifeDir, Reason::NoText),
    ),
    (
        &["node = 1\ndests = [4]\nlife_dir = [\"n1\"]\n"],
        Refused(Place::LifeDir, Reason::NoText),
    ),
    (&[HEAD], Refused(Place::Links, Reason::Missing)),
    (
        &[HEAD, "link = []\n"],
        Refused(Place::Links, Reason::Missing),
    ),
    (&[HEAD, "link = 2\n"], Refused(Place::Links, Reason::NoList)),
    (
        &[HEAD, "link = [2]\n"],
        Refused(Place::Link(1), Reason::NoTable),
    ),
    (
        &[HEAD, "[link]\npeer = 2\n"],
        Refused(Place::Links, Reason::NoList),
    ),
];

#[test]
fn keys_of_a_node(rt: HostRuntime) {
    each_is_read(&rt, rt.alloc(), KEYS_OF_A_NODE);
}

/// Configurations whose second link has a missing or faulty key, and the fault.
const KEYS_OF_A_LINK: &[(&[&str], Wanted)] = &[
    (
        &[HEAD, LINK, "[[link]]\n"],
        Refused(Place::Peer(2), Reason::Missing),
    ),
    (
        &[HEAD, LINK, "[[link]]\npeer = \"3\"\n"],
        Refused(Place::Peer(2), Reason::NoNumber),
    ),
    (
        &[HEAD, LINK, "[[link]]\npeer = 0\n"],
        Refused(Place::Peer(2), Reason::NoId),
    ),
    (
        &[HEAD, LINK, "[[link]]\npeer = -3\n"],
        Refused(Place::Peer(2), Reason::NoId),
    ),
    (
        &[HEAD, LINK, "[[link]]\npeer = 4294967296\n"],
        Refused(Place::Peer(2), Reason::NoId),
    ),
    (
        &[HEAD, LINK, "[[link]]\npeer = 3\n"],
        Refused(Place::Local(2), Reason::Missing),
    ),
    (
        &[HEAD, LINK, "[[link]]\npeer = 3\nlocal = \"1\"\n"],
        Refused(Place::Local(2), Reason::NoNumber),
    ),
    (
        &[HEAD, LINK, "[[link]]\npeer = 3\nlocal = 65536\n"],
        Refused(Place::Local(2), Reason::NoPort),
    ),
    (
        &[HEAD, LINK, "[[link]]\npeer = 3\nlocal = -1\n"],
        Refused(Place::Local(2), Reason::NoPort),
    ),
    (
        &[HEAD, LINK, "[[link]]\npeer = 3\nlocal = 4013\n"],
        Refused(Place::Remote(2), Reason::Missing),
    ),
    (
        &[
            HEAD,
            LINK,
            "[[link]]\npeer = 3\nlocal = 4013\nremote = false\n",
        ],
        Refused(Place::Remote(2), Reason::NoNumber),
    ),
    (
        &[HEAD, LINK, "[[link]]\npeer = 3\nlocal = 4013\nremote = 0\n"],
        Refused(Place::Remote(2), Reason::NoPort),
    ),
    (
        &[
            HEAD,
            LINK,
            "[[link]]\npeer = 3\nlocal = 4013\nremote = 65536\n",
        ],
        Refused(Place::Remote(2), Reason::NoPort),
    ),
    (
        &[
            HEAD,
            LINK,
            "[[link]]\npeer = 3\nlocal = 4012\nremote = 4031\n",
        ],
        Refused(Place::Local(2), Reason::Repeated),
    ),
    (
        &[
            HEAD,
            LINK,
            "[[link]]\npeer = 2\nlocal = 4012\nremote = 4031\n",
        ],
        Refused(Place::Peer(2), Reason::Repeated),
    ),
    (
        &[
            HEAD,
            LINK,
            "[[link]]\npeer = 1\nlocal = 4013\nremote = 4031\n",
        ],
        Refused(Place::Peer(2), Reason::OwnId),
    ),
];

#[test]
fn keys_of_a_link(rt: HostRuntime) {
    each_is_read(&rt, rt.alloc(), KEYS_OF_A_LINK);
}

/// Texts with a key that occurs twice, which are not TOML, and one with an unknown key of a link, which the error
/// names.
const REPEATED_AND_UNKNOWN: &[(&[&str], Wanted)] = &[
    (&["node = 1\n", WORKED], NoToml),
    (&["dests = []\n", WORKED], NoToml),
    (&["life_dir = \"n2\"\n", WORKED], NoToml),
    (&[WORKED, "peer = 2\n"], NoToml),
    (&[WORKED, "local = 4012\n"], NoToml),
    (&[WORKED, "remote = 4021\n"], NoToml),
    (
        &[WORKED, "name = \"two\"\n"],
        Says("`name` of link 1 is no key of a link"),
    ),
];

#[test]
fn repeated_and_unknown_keys(rt: HostRuntime) {
    each_is_read(&rt, rt.alloc(), REPEATED_AND_UNKNOWN);
}

/// A link to each of the peers 2 to 33.
const MOST_LINKS: &str = "[[link]]\npeer = 2\nlocal = 2\nremote = 1\n\
     [[link]]\npeer = 3\nlocal = 3\nremote = 1\n\
     [[link]]\npeer = 4\nlocal = 4\nremote = 1\n\
     [[link]]\npeer = 5\nlocal = 5\nremote = 1\n\
     [[link]]\npeer = 6\nlocal = 6\nremote = 1\n\
     [[link]]\npeer = 7\nlocal = 7\nremote = 1\n\
     [[link]]\npeer = 8\nlocal = 8\nremote = 1\n\
     [[link]]\npeer = 9\nlocal = 9\nremote = 1\n\
     [[link]]\npeer = 10\nlocal = 10\nremote = 1\n\
     [[link]]\npeer = 11\nlocal = 11\nremote = 1\n\
     [[link]]\npeer = 12\nlocal = 12\nremote = 1\n\
     [[link]]\npeer = 13\nlocal = 13\nremote = 1\n\
     [[link]]\npeer = 14\nlocal = 14\nremote = 1\n\
     [[link]]\npeer = 15\nlocal = 15\nremote = 1\n\
     [[link]]\npeer = 16\nlocal = 16\nremote = 1\n\
     [[link]]\npeer = 17\nlocal = 17\nremote = 1\n\
     [[link]]\npeer = 18\nlocal = 18\nremote = 1\n\
     [[link]]\npeer = 19\nlocal = 19\nremote = 1\n\
     [[link]]\npeer = 20\nlocal = 20\nremote = 1\n\
     [[link]]\npeer = 21\nlocal = 21\nremote = 1\n\
     [[link]]\npeer = 22\nlocal = 22\nremote = 1\n\
     [[link]]\npeer = 23\nlocal = 23\nremote = 1\n\
     [[link]]\npeer = 24\nlocal = 24\nremote = 1\n\
     [[link]]\npeer = 25\nlocal = 25\nremote = 1\n\
     [[link]]\npeer = 26\nlocal = 26\nremote = 1\n\
     [[link]]\npeer = 27\nlocal = 27\nremote = 1\n\
     [[link]]\npeer = 28\nlocal = 28\nremote = 1\n\
     [[link]]\npeer = 29\nlocal = 29\nremote = 1\n\
     [[link]]\npeer = 30\nlocal = 30\nremote = 1\n\
     [[link]]\npeer = 31\nlocal = 31\nremote = 1\n\
     [[link]]\npeer = 32\nlocal = 32\nremote = 1\n\
     [[link]]\npeer = 33\nlocal = 33\nremote = 1\n";

/// A node with 64 destinations, without the end of their list.
const MOST_DESTS: &str =
    "node = 1\nlife_dir = \"n1\"\ndests = [1, 2, 3, 4, 5, 6, 7, 8, 9, 10, 11, 12, 13, 14, 15, 16, \
     17, 18, 19, 20, 21, 22, 23, 24, 25, 26, 27, 28, 29, 30, 31, 32, \
     33, 34, 35, 36, 37, 38, 39, 40, 41, 42, 43, 44, 45, 46, 47, 48, \
     49, 50, 51, 52, 53, 54, 55, 56, 57, 58, 59, 60, 61, 62, 63, 64";

const BY_A_CORE: &[(&[&str], Wanted)] = &[
    (&[HEAD, MOST_LINKS], Accepted),
    (
        &[
            HEAD,
            MOST_LINKS,
            "[[link]]\npeer = 34\nlocal = 34\nremote = 1\n",
        ],
        TooMany,
    ),
    (&[MOST_DESTS, "]\n", LINK], Accepted),
    (&[MOST_DESTS, ", 65]\n", LINK], TooMany),
];

#[test]
fn what_a_core_refuses(rt: HostRuntime) {
    each_is_read(&rt, rt.alloc(), BY_A_CORE);
}

const FAULTS: &[(&[&str], Wanted)] = &[
    (&[""], Says("`node` is missing")),
    (&["node = 0\n"], Says("`node` is not from 1 to 4294967295")),
    (&["node = 1\ndests = 4\n"], Says("`dests` is no list")),
    (
        &["node = 1\ndests = [4, 4]\n"],
        Says("`dests`, number 2 is repeated"),
    ),
    (
        &["node = 1\ndests = []\nlife_dir = 1\n"],
        Says("`life_dir` is no text"),
    ),
    (
        &[HEAD, "erasure = \"Plain\"\n"],
        Says("`erasure` is neither `plain` nor `remembered`"),
    ),
    (&[HEAD, "erasure = 1\n", LINK], Says("`erasure` is no text")),
    (
        &[HEAD, "erasure = \"remembered\"\n"],
        Says("`link` is missing"),
    ),
    (&[HEAD], Says("`link` is missing")),
    (
        &[BARE, "link = [2]\n"],
        Says("`link`, number 1 is no table"),
    ),
    (
        &[BARE, "[[link]]\npeer = 1.5\n"],
        Says("`peer` of link 1 is no whole number"),
    ),
    (
        &[BARE, "[[link]]\npeer = 2\nlocal = 0\n"],
        Says("`local` of link 1 is not from 1 to 65535"),
    ),
    (
        &[BARE, "[[link]]\npeer = 2\nlocal = 1\n"],
        Says("`remote` of link 1 is missing"),
    ),
    (
        &[BARE, "[[link]]\npeer = 1\nlocal = 1\nremote = 1\n"],
        Says("`peer` of link 1 is the node itself"),
    ),
];

#[test]
fn faults_name_the_key_and_the_reason(rt: HostRuntime) {
    let alloc = rt.alloc();
    each_is_read(&rt, alloc, FAULTS);
    says(
        &rt,
        alloc,
        &ConfigError::Memory,
        "out of memory",
        "no memory",
    );
}

const WANTING_MEMORY: &[(&str, Wanted)] = &[(WORKED, Worked), ("name = 1\n", UnknownKey("name"))];

#[test]
fn want_of_memory_is_answered(rt: HostRuntime) {
    each_is_read_or_wants_memory(&rt, rt.alloc(), WANTING_MEMORY);
}
