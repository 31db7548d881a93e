//! The command line.
use clap::{Arg, ArgAction, Command};
use std::alloc::{AllocError, Global};

/// What `--help` says of files and exit statuses.
const FORMATS: &str = "\
Without a word `tora` does what `tora replay` does.

Lines of a replay file, each ended by LF, of at most 4096 bytes:
  node I links LIST dests LIST   the first line: the node, its neighbours, and
                                 the destinations in its table
  NOW up K                       the link to neighbour K comes up
  NOW down K                     the link to neighbour K goes down
  NOW need D                     a route to destination D is needed
  NOW from K HEX                 the packet HEX comes from neighbour K
  NOW show                       prints the table
I, K and D are numbers from 1 to 4294967295. A LIST is such numbers separated by
commas, or `-` for none. NOW is a number below 2^64, in ticks of 100 ms. HEX is
an even number of hexadecimal digits, or `-` for none. One blank separates two
words.

Lines that it prints:
  send HEX                       a packet to every neighbour whose link is up
  bad N                          the bytes are not a packet; N is the error
  refused N                      the input is refused; N is the cause
  to D height H flag F hop K     `show`, for each destination
  via K H up|down|none           `show`, for each neighbour whose link is up
  fault N                        line N is a fault, and the replay ends

Exit statuses:
  0  the input ended
  1  a line is a fault, or input or output failed
  2  usage
  5  out of memory";

/// What `--help` of `sim` says of its file.
const SIMULATION: &str = "\
Lines of a simulation file, each ended by LF, of at most 4096 bytes:
  dests LIST         the first line: the destinations in every node's table
  link A B           then one link or more; the nodes are those of the links
  old N              directly after the links, any number of these: the link
                     ends of N use only version 1 of frames
  erasure N WORD     among these lines: how N treats erased reference levels,
                     plain or remembered; for N it overrides --erasure
then, in any order, events:
  need N D           N needs a route to destination D
  tick               the clock advances by one tick of 100 ms
  open N K           the closed link end of N towards K begins a session
  pull N K           that end takes what N's core has sent to K
  transmit N K       that end sends its next frame
  deliver I          datagram I, of all ever sent, arrives at its receiver
  pump N K           that end passes its next event to N's core
  turn N             N's core takes the next item from its queue
  arm N CALL         the next call of this kind by N fails: send-lost,
                     send-gone, receive, read, write or sync
  restart N T        N restarts; bytes that its disks have not synced become T,
                     32 hexadecimal digits, or are lost for `-`
and orders:
  rounds R           runs R rounds, at most 10000; in a round every node serves
                     items, and every link end sends and delivers
  part A B           rounds stop delivering datagrams between A and B
  mend A B           rounds deliver them again
  heights D          prints `node N H hop K` for each node: its height for D
                     and its next hop
  exact D            prints `exact 1` if every height for D that a node knows
                     of a neighbour is the neighbour's height, else `exact 0`
  walk N D           prints `walk LIST`, the nodes from N to D by next hops, or
                     `walk -` if the next hops do not lead to D
  rest               prints `rest yes` if nothing is under way, else `rest no`
  sent A B X Y       prints `count C`: packets that A's core sent to B in the
                     session that A's end writes {X, Y}
  taken B A Y X      prints `count C`: packets that B's core took from A in the
                     session that B's end writes {Y, X}
N, K, A, B and D are numbers from 1 to 4294967295. A LIST is such numbers
separated by commas, or `-` for none. One blank separates two words.

A refused event prints `refused N` (2: no such node or link, 3: no such
datagram, 4: not possible now). If line N is none of these lines, `fault N` is
printed and the simulation ends.

Example, a line of three nodes of which the first needs a route to the last:
  dests 3
  link 1 2
  link 2 3
  need 1 3
  rounds 3
  heights 3
prints
  node 1 (0,0,0,2,1) hop 2
  node 2 (0,0,0,1,2) hop 3
  node 3 (0,0,0,0,3) hop -

With --trace PATH, records of what happens are written to PATH, one a line, each
beginning with the clock: need, part, mend; up and down of a core's link; qry,
upd and clr that a core broadcasts; route for a height or next hop that changed;
frames for the datagrams of a round. Standard output stays the same.
docs/formats.md, \"Traces\", defines the records.

Exit statuses:
  0  the file ended
  1  a line is a fault, a file cannot be read, output failed, or the trace
     cannot be written
  2  usage
  5  out of memory";

/// What `--help` of `node` says of its configuration and commands.
const NODE: &str = "\
The configuration is a TOML file. Every key but `erasure` and `key_file` is
required, and no other key is allowed:
  node = I           the number of the node
  dests = [D, ..]    the destinations in its table, at most 64
  life_dir = \"DIR\"   the folder of its life files, made if it is missing
  erasure = \"WORD\"   how it treats erased reference levels: plain, the default,
                     or remembered
  [[link]]           for each link, 1 to 32 times:
  peer = K           the neighbour
  local = PORT       the UDP port of 127.0.0.1 that this node binds
  remote = PORT      the UDP port of 127.0.0.1 that the neighbour binds
  key_file = \"PATH\"  the file with the key of the link, as `tora key` prints it
A PORT may also be an address, such as \"10.0.0.1:7001\" or \"[::1]:7001\". A link
that leaves the loopback needs a key. Both ends of a link have the same key.

Commands on standard input, one a line:
  need D             a route to destination D is needed
  cut K              ends the session of the link to K at once
  show               prints the table
  json               prints the state of the node as a line of JSON
  watch              prints every height and next hop, and then each change:
                     height D H, hop D K
  quit               ends the node, as the end of the input does
  help               lists the commands on standard error
Any other line is logged and ignored.

Exit statuses:
  0  a command or the end of the input ended it
  1  the configuration or a key is at fault, or output failed
  2  usage
  3  a socket cannot be bound, or it failed
  4  a life file cannot be opened or draws no number
  5  out of memory";

/// `--erasure` of `replay`, `sim` and `drive`. The program reads its word by the name `erasure`.
fn erasure<'a>(alloc: Global) -> Arg<'a> {
    Arg::new(alloc, "erasure")
        .long("erasure")
        .value_name("WORD")
        .help(
            "How nodes treat erased reference levels: `plain`, or `remembered`: a node then \
             takes no height from an update of the level that it erased last. The default is \
             plain",
        )
}

/// The subcommand `replay`.
fn replay<'a>(alloc: Global) -> Result<Command<'a>, AllocError> {
    Command::new(alloc, "replay")
        .about("Replays the inputs of one node, from standard input to standard output")
        .after_help(FORMATS)
        .arg(erasure(alloc))
}

/// `--times` of `sim` and `drive`.
fn times<'a>(alloc: Global) -> Arg<'a> {
    Arg::new(alloc, "times")
        .long("times")
        .value_name("HELLO,SILENCE,RETRY,TRIES")
        .help(
            "The times of each link end, in ticks of 100 ms, each at least 1: between two \
             HELLOs, the silence that ends a session, between two tries of a packet, and the \
             number of tries. The default is 10,50,5,8",
        )
}

/// `--channel` of `sim`.
fn channel<'a>(alloc: Global) -> Arg<'a> {
    Arg::new(alloc, "channel")
        .long("channel")
        .value_name("PARTS")
        .help(
            "What happens to datagrams in rounds, such as loss=0.1,delay=1-3,repeat=0.01: the \
             share that is lost, the delay in rounds, the share that arrives twice",
        )
}

/// `--seed` of `sim`.
fn seed<'a>(alloc: Global) -> Arg<'a> {
    Arg::new(alloc, "seed")
        .long("seed")
        .value_name("NUMBER")
        .help("The seed of the random numbers of a channel, below 2^64. The default is 0")
}

/// `--notice` of `sim`.
fn notice<'a>(alloc: Global) -> Arg<'a> {
    let help =
        "When a link is parted, both ends cut its session at once, as if a link layer had reported it";
    flag(alloc, "notice", help)
}

/// `--large` of `sim` and `drive`.
fn large<'a>(alloc: Global) -> Arg<'a> {
    flag(
        alloc,
        "large",
        "Allows up to 1024 nodes and 255 neighbours of a node, instead of 64 and 32",
    )
}

/// `--channel-file` of `sim`.
fn channel_file<'a>(alloc: Global) -> Arg<'a> {
    Arg::new(alloc, "channel-file")
        .long("channel-file")
        .value_name("PATH")
        .help(
            "A file of lines `T A B PARTS`: from round T on, the datagrams between A and B have \
             these PARTS, as in `--channel`",
        )
}

/// `--until` of `sim`.
fn until<'a>(alloc: Global) -> Arg<'a> {
    Arg::new(alloc, "until")
        .long("until")
        .value_name("ROUNDS")
        .help("Stops after this many rounds: later lines are read and not carried out")
}

/// `--progress` of `sim`.
fn progress<'a>(alloc: Global) -> Arg<'a> {
    let help =
        "Shows on standard error, if that is a terminal, the rounds done, the rounds a second, and the time left";
    flag(alloc, "progress", help)
}

/// `--trace` of `sim`.
fn trace<'a>(alloc: Global) -> Arg<'a> {
    Arg::new(alloc, "trace")
        .long("trace")
        .value_name("PATH")
        .help("Writes a record of what happens to this file, one a line")
}

/// An option without a value.
fn flag<'a>(alloc: Global, name: &'a str, help: &'a str) -> Arg<'a> {
    Arg::new(alloc, name)
        .long(name)
        .action(ArgAction::SetTrue)
        .help(help)
}

/// A required argument of a subcommand.
fn required<'a>(alloc: Global, name: &'a str, help: &'a str) -> Arg<'a> {
    Arg::new(alloc, name).required(true).help(help)
}

/// The subcommand `sim`.
fn sim<'a>(alloc: Global) -> Result<Command<'a>, AllocError> {
    let file = required(alloc, "FILE", "The simulation file");
    Command::new(alloc, "sim")
        .about("Simulates a world of nodes, links and datagrams, by the lines of a file")
        .after_help(SIMULATION)
        .arg(times(alloc))?
        .arg(channel(alloc))?
        .arg(seed(alloc))?
        .arg(channel_file(alloc))?
        .arg(notice(alloc))?
        .arg(large(alloc))?
        .arg(erasure(alloc))?
        .arg(until(alloc))?
        .arg(progress(alloc))?
        .arg(trace(alloc))?
        .arg(file)
}

/// `--record` of `drive`.
fn record<'a>(alloc: Global) -> Arg<'a> {
    Arg::new(alloc, "record")
        .long("record")
        .value_name("PATH")
        .help("Writes a simulation file of the drive to this file")
}

/// What `--help` of `drive` says of its lines.
const DRIVE: &str = "\
It prints `tora drive 1`. Then it reads lines of a simulation file (`tora sim
--help`) on standard input, and answers each line before it reads the next.
An answer is what `tora sim` prints for the line, then
  sent A B ID LENGTH  for each datagram that the line sent, from A to B: its
                      number, from 1, and its length in bytes
  hop N D K           for each next hop of N to D that changed; `-` for none
and one last line:
  ok                  the line was carried out
  refused N           the event is refused, as `tora sim` refuses it
  fault N CAUSE       line N is a fault
A line that is refused or a fault changes nothing. An empty line, and a line of
more than 4096 bytes, are faults.

After the links there are further lines:
  step                a round in which no datagram is delivered
  needs               prints `need N D` for each node N that requires a route
                      to destination D
  far N K             the end of N towards K sends nothing in a step
  near N K            it sends again
  notice N K          the end of N towards K cuts its bound session, as when a
                      radio has lost K
  bytes ID            prints `bytes ID HEX`, the bytes of a datagram
  take A B HEX        A receives these bytes from B; refused if they are not a
                      datagram from B to A
  forget ID           datagrams up to ID can no longer be named

With --record PATH a simulation file is written: the lines that were carried
out, and the events of each step. `tora sim PATH` with the same --times, --large
and --erasure makes the same events happen. A line `notice` is then a fault, as
no line of a simulation file corresponds to it.

Exit statuses:
  0  the input ended
  1  input or output failed, or the record cannot be written
  2  usage
  5  out of memory";

/// The subcommand `drive`.
fn drive<'a>(alloc: Global) -> Result<Command<'a>, AllocError> {
    Command::new(alloc, "drive")
        .about("Simulates a world that another program drives by lines on standard input")
        .after_help(DRIVE)
        .arg(times(alloc))?
        .arg(large(alloc))?
        .arg(erasure(alloc))?
        .arg(record(alloc))
}

/// The levels of `--log`; the first one logs nothing.
const LEVELS: &[&str] = &["off", "error", "warn", "info", "debug", "trace"];

/// `--log` of `node`.
fn level<'a>(alloc: Global) -> Arg<'a> {
    Arg::new(alloc, "log")
        .long("log")
        .value_name("LEVEL")
        .value_parser(LEVELS)
        .help("Logs messages of this level and above on standard error. The default is info")
}

/// The subcommand `node`.
fn node<'a>(alloc: Global) -> Result<Command<'a>, AllocError> {
    let config = required(alloc, "CONFIG", "The configuration, a TOML file");
    let check = flag(
        alloc,
        "check",
        "Checks the configuration, reports what is wrong with it, and ends",
    );
    let time = flag(
        alloc,
        "log-time",
        "Puts the time, in UTC, before each line of the log",
    );
    Command::new(alloc, "node")
        .about("Runs a node over UDP, with its commands on standard input")
        .after_help(NODE)
        .arg(config)?
        .arg(check)?
        .arg(level(alloc))?
        .arg(time)
}

/// The subcommand `key`.
fn key<'a>(alloc: Global) -> Command<'a> {
    Command::new(alloc, "key").about("Prints a new key for the two ends of a link")
}

/// `--verbose`, for every command.
fn verbose<'a>(alloc: Global) -> Arg<'a> {
    let help =
        "Reports more on standard error: why an event is refused, and which node and neighbour a life file belongs to";
    flag(alloc, "verbose", help).short('v').global(true)
}

/// The command line of the program.
pub fn command<'a>(alloc: Global) -> Result<Command<'a>, AllocError> {
    Command::new(alloc, "tora")
        .bin_name("tora")?
        .version("1.0.0-dev")
        .about("A TORA router node")
        .after_help(FORMATS)
        .arg(verbose(alloc))?
        .subcommand(replay(alloc)?)?
        .subcommand(sim(alloc)?)?
        .subcommand(drive(alloc)?)?
        .subcommand(node(alloc)?)?
        .subcommand(key(alloc))
}
