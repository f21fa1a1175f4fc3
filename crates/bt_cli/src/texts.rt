//! The commands in words: how each is called, what it does, and its options. The module `options` makes them `clap`'s, and `clap`
//! makes the texts of `--help` of them.

/// An option of a command.
#[derive(Clone, Copy, Debug)]
pub(crate) struct OptionText {
    pub name: &'static str,
    /// Its name in earlier versions, which help leaves out; nothing if it had none.
    pub alias: &'static str,
    /// The name of its value; nothing if it takes none.
    pub value: &'static str,
    /// It may be given more than once.
    pub is_repeated: bool,
    /// What it is, its values, and its default in brackets.
    pub help: &'static str,
}

/// A word of a command that is no option.
#[derive(Clone, Copy, Debug)]
pub(crate) struct OperandText {
    pub name: &'static str,
    pub is_required: bool,
    pub is_repeated: bool,
    pub help: &'static str,
}

/// A command.
#[derive(Clone, Copy, Debug)]
pub(crate) struct CommandText {
    pub name: &'static str,
    pub usage: &'static str,
    pub about: &'static str,
    pub options: &'static [OptionText],
    pub operands: &'static [OperandText],
    /// An example, and the exit statuses.
    pub after: &'static str,
}

const RESERVED: OptionText = OptionText {
    name: "reserved",
    alias: "",
    value: "HEX",
    is_repeated: false,
    help: "Reserved bits that the receiver sent: 16 hex digits [default: 0000000000100005]",
};

const PIECES: OptionText = OptionText {
    name: "pieces",
    alias: "",
    value: "N",
    is_repeated: false,
    help: "Number of pieces of the torrent: 0 to 4294967295 [default: unknown]",
};

const METADATA_ID: OptionText = OptionText {
    name: "metadata-id",
    alias: "",
    value: "N",
    is_repeated: false,
    help: "Id that the receiver announced for ut_metadata: 0 to 255, 0 for none [default: 3]",
};

const DONTHAVE_ID: OptionText = OptionText {
    name: "donthave-id",
    alias: "",
    value: "N",
    is_repeated: false,
    help: "Id that the receiver announced for lt_donthave: 0 to 255, 0 for none [default: 0]",
};

const INFO_HASH: OptionText = OptionText {
    name: "info-hash",
    alias: "",
    value: "HEX",
    is_repeated: false,
    help: "Only info hash that is accepted: 40 hex digits [default: any]",
};

const OTHER: OptionText = OptionText {
    name: "other",
    alias: "",
    value: "FILE",
    is_repeated: false,
    help: "Stream that the receiver sent; it gives the bits and ids that no option gives [default: none]",
};

const FREE: OptionText = OptionText {
    name: "rules",
    alias: "",
    value: "RULES",
    is_repeated: false,
    help: "Rules: 'free' (lenient) or 'bep' (strict) [default: free]",
};

const BEP: OptionText = OptionText {
    name: "rules",
    alias: "",
    value: "RULES",
    is_repeated: false,
    help: "Rules: 'free' (lenient) or 'bep' (strict) [default: bep]",
};

const LIMIT: OptionText = OptionText {
    name: "limit",
    alias: "",
    value: "N",
    is_repeated: false,
    help: "Greatest length of a message, without its prefix: 1 to 1048576 [default: 262144]",
};

const LIMIT_OF_ENDS: OptionText = OptionText {
    name: "limit",
    alias: "",
    value: "N",
    is_repeated: false,
    help: "Greatest length of a message, without its prefix: 32768 to 1048576 [default: 262144]",
};

const HINTS: OptionText = OptionText {
    name: "hints",
    alias: "",
    value: "WHEN",
    is_repeated: false,
    help: "When standard error gets a hint: 'always', 'never' or 'auto' (on a terminal) [default: auto]",
};

const JSON: OptionText = OptionText {
    name: "json",
    alias: "",
    value: "",
    is_repeated: false,
    help: "Prints a JSON object a line: one for each item, and one for the verdict",
};

const TIMEOUT: OptionText = OptionText {
    name: "timeout",
    alias: "patience",
    value: "SECONDS",
    is_repeated: false,
    help: "Seconds without progress after which a connection ends: 1 to 86400 [default: 30]",
};

const WINDOW: OptionText = OptionText {
    name: "window",
    alias: "",
    value: "N",
    is_repeated: false,
    help: "Blocks that are requested at once: 1 to 8 [default: 8, and 1 if a peer is tried again]",
};

const MAX_SIZE: OptionText = OptionText {
    name: "max-size",
    alias: "most",
    value: "BYTES",
    is_repeated: false,
    help: "Greatest size of metadata that is taken: 1 to 67108864 [default: 67108864]",
};

const TORRENT: OptionText = OptionText {
    name: "torrent",
    alias: "",
    value: "",
    is_repeated: false,
    help: "Writes a .torrent, and not only the metadata",
};

const LISTEN: OptionText = OptionText {
    name: "listen",
    alias: "",
    value: "ADDRESS",
    is_repeated: false,
    help: "Where it listens: IP:PORT or [IPv6]:PORT; port 0 takes a free one [default: 127.0.0.1:0]",
};

const EXIT_AFTER: OptionText = OptionText {
    name: "exit-after",
    alias: "connections",
    value: "N",
    is_repeated: false,
    help: "Connections after which it ends: 1 to 4294967295 [default: none, it goes on]",
};

const MAX_CONNECTIONS: OptionText = OptionText {
    name: "max-connections",
    alias: "at-once",
    value: "N",
    is_repeated: false,
    help: "Connections that are served at the same time: 1 to 1024 [default: 64]",
};

const PEERS: OptionText = OptionText {
    name: "peers",
    alias: "",
    value: "FILE",
    is_repeated: false,
    help: "File of more peers, one a line, '#' before a comment; '-' is standard input [default: none]",
};

const AT_ONCE: OptionText = OptionText {
    name: "at-once",
    alias: "",
    value: "N",
    is_repeated: false,
    help: "Peers that are asked at the same time: 1 to 256; memory is at most as many times '--max-size' [default: 16]",
};

const JSON_OF_FETCH: OptionText = OptionText {
    name: "json",
    alias: "",
    value: "",
    is_repeated: false,
    help: "Writes a JSON object a line on standard error: one for each connection's end, and one for the summary",
};

const TRACKER: OptionText = OptionText {
    name: "tracker",
    alias: "",
    value: "URL",
    is_repeated: true,
    help: "Tracker that is asked too: udp://HOST:PORT or http://HOST[:PORT][/PATH]; may be given more than once [default: none]",
};

const DHT: OptionText = OptionText {
    name: "dht",
    alias: "",
    value: "HOST:PORT",
    is_repeated: true,
    help: "Node of the DHT that is asked first, in place of the usual ones; may be given more than once [default: those of other clients]",
};

const NO_TRACKERS: OptionText = OptionText {
    name: "no-trackers",
    alias: "",
    value: "",
    is_repeated: false,
    help: "Doesn't ask the trackers of the link",
};

const NO_DHT: OptionText = OptionText {
    name: "no-dht",
    alias: "",
    value: "",
    is_repeated: false,
    help: "Doesn't ask the usual nodes of the DHT",
};

const LOCAL: OptionText = OptionText {
    name: "local",
    alias: "",
    value: "",
    is_repeated: false,
    help: "Takes private addresses too that the link, a tracker or a node names",
};

const TORRENT_OF_CAPTURE: OptionText = OptionText {
    name: "torrent",
    alias: "",
    value: "FILE",
    is_repeated: false,
    help: "A .torrent, whose piece count the connections with its info hash have [default: none]",
};

const ROWS_OF_CAPTURE: OptionText = OptionText {
    name: "show",
    alias: "",
    value: "",
    is_repeated: false,
    help: "Prints a row for each item, refusal, gap and close too, as it comes",
};

const STREAM_OF_CAPTURE: OptionText = OptionText {
    name: "stream",
    alias: "",
    value: "N-SIDE",
    is_repeated: false,
    help: "Writes only the stream of one side, as 0-A: what side A of connection 0 sent [default: none]",
};

const JSON_OF_CAPTURE: OptionText = OptionText {
    name: "json",
    alias: "",
    value: "",
    is_repeated: false,
    help: "Prints a JSON object a line: one for each connection, and with '--show' one for each row",
};

const ONLY_OF_CAPTURE: OptionText = OptionText {
    name: "only",
    alias: "",
    value: "WHICH",
    is_repeated: false,
    help: "Reports only connections of which a direction is refused under the lenient rules: 'refused' [default: all]",
};

const PEER_OF_CAPTURE: OptionText = OptionText {
    name: "peer",
    alias: "",
    value: "IP[:PORT]",
    is_repeated: false,
    help: "Reports only connections with this end: IP, IP:PORT or [IPv6]:PORT [default: all]",
};

const STRICT_STATUS: OptionText = OptionText {
    name: "strict-status",
    alias: "",
    value: "",
    is_repeated: false,
    help: "Ends with status 4 in place of 0 if a direction was read in part only: it has a gap, bytes and no whole handshake, or wasn't read further",
};

const STREAM: OperandText = OperandText {
    name: "FILE",
    is_required: false,
    is_repeated: true,
    help: "A stream, from its handshake on; standard input if there is no FILE, or if it is '-'",
};

const SCRIPT: OperandText = OperandText {
    name: "FILE",
    is_required: false,
    is_repeated: true,
    help: "A script; standard input if there is no FILE, or if it is '-'",
};

const PACKETS: OperandText = OperandText {
    name: "FILE",
    is_required: false,
    is_repeated: true,
    help: "A pcap or pcapng file; standard input if there is no FILE, or if it is '-'",
};

const INFOHASH: OperandText = OperandText {
    name: "INFOHASH",
    is_required: true,
    is_repeated: false,
    help: "A magnet link, or the info hash alone: 40 hex digits, or 32 base32 digits",
};

const ADDRESS: OperandText = OperandText {
    name: "ADDRESS",
    is_required: false,
    is_repeated: true,
    help: "A peer: IP:PORT, [IPv6]:PORT or HOST:PORT; those of the link and of '--peers' come after them",
};

const METADATA: OperandText = OperandText {
    name: "FILE",
    is_required: true,
    is_repeated: false,
    help: "A .torrent, or only its info dictionary",
};

const SHOW_USAGE: &str = "bt_tool show [OPTIONS] [FILE]";

const CHECK_USAGE: &str = "bt_tool check [OPTIONS] [FILE]..";

const UNPACK_USAGE: &str = "bt_tool unpack [OPTIONS] [FILE]";

const PACK_USAGE: &str = "bt_tool pack [OPTIONS] [FILE]";

const LINK_USAGE: &str = "bt_tool link [FILE]";

const CAPTURE_USAGE: &str = "bt_tool capture [OPTIONS] [FILE]";

const LOOP_USAGE: &str = "bt_tool loop [OPTIONS]";

const FETCH_USAGE: &str = "bt_tool fetch [OPTIONS] MAGNET|INFOHASH [ADDRESS]..";

const PEERS_OF_LINK_USAGE: &str = "bt_tool peers [OPTIONS] MAGNET|INFOHASH";

const SERVE_USAGE: &str = "bt_tool serve [OPTIONS] FILE";

pub(crate) const SHOW: CommandText = CommandText {
    name: "show",
    usage: SHOW_USAGE,
    about: "Prints a line for each item of a stream, and then the verdict",
    options: &[
        RESERVED,
        PIECES,
        METADATA_ID,
        DONTHAVE_ID,
        INFO_HASH,
        OTHER,
        FREE,
        LIMIT,
        HINTS,
        JSON,
    ],
    operands: &[STREAM],
    after: "\
Example:
  bt_tool show --pieces 10 --rules bep stream.bin

Exit status:
  0    The stream is accepted
  1    The stream is refused
  2    Usage error, or the '--other' file doesn't start with a complete handshake
  3    A read or a write failed, the program is out of memory, or the input has no end
  141  The output pipe was closed, as after '| head'",
};

pub(crate) const CHECK: CommandText = CommandText {
    name: "check",
    usage: CHECK_USAGE,
    about: "Prints the verdict on a stream; of several files a line each, with the file's name in front",
    options: &[
        RESERVED,
        PIECES,
        METADATA_ID,
        DONTHAVE_ID,
        INFO_HASH,
        OTHER,
        BEP,
        LIMIT,
        HINTS,
    ],
    operands: &[STREAM],
    after: "\
Example:
  bt_tool check --reserved 0000000000100004 *.bin

Exit status:
  0    Each stream is accepted
  1    A stream is refused
  2    Usage error, or the '--other' file doesn't start with a complete handshake
  3    A read or a write failed, the program is out of memory, or the input has no end
  141  The output pipe was closed, as after '| head'",
};

pub(crate) const UNPACK: CommandText = CommandText {
    name: "unpack",
    usage: UNPACK_USAGE,
    about: "Prints the script of a stream: a line for each item, with all of its bytes",
    options: &[
        RESERVED,
        PIECES,
        METADATA_ID,
        DONTHAVE_ID,
        INFO_HASH,
        OTHER,
        FREE,
        LIMIT,
        HINTS,
    ],
    operands: &[STREAM],
    after: "\
Example:
  bt_tool unpack stream.bin > script.txt

Exit status:
  0    The stream is accepted
  1    The stream is refused
  2    Usage error, or the '--other' file doesn't start with a complete handshake
  3    A read or a write failed, the program is out of memory, or the input has no end
  141  The output pipe was closed, as after '| head'",
};

pub(crate) const PACK: CommandText = CommandText {
    name: "pack",
    usage: PACK_USAGE,
    about: "Encodes a script into a stream; stops at the first invalid line",
    options: &[
        RESERVED,
        PIECES,
        METADATA_ID,
        DONTHAVE_ID,
        INFO_HASH,
        OTHER,
        FREE,
        LIMIT,
        HINTS,
    ],
    operands: &[SCRIPT],
    after: "\
Example:
  bt_tool pack script.txt > stream.bin

Exit status:
  0    The script is accepted
  1    A line of the script is refused
  2    Usage error, or the '--other' file doesn't start with a complete handshake
  3    A read or a write failed, the program is out of memory, or the input has no end
  141  The output pipe was closed, as after '| head'",
};

pub(crate) const LINK: CommandText = CommandText {
    name: "link",
    usage: LINK_USAGE,
    about: "Runs two simulated peers against each other, step by step, by a scenario",
    options: &[],
    operands: &[SCRIPT],
    after: "\
Example:
  bt_tool link examples/link.txt

Exit status:
  0    The link ran
  1    A line of the script is refused, or the two ends don't match
  2    Usage error
  3    A read or a write failed, the program is out of memory, or the input has no end
  141  The output pipe was closed, as after '| head'",
};

pub(crate) const CAPTURE: CommandText = CommandText {
    name: "capture",
    usage: CAPTURE_USAGE,
    about: "Prints a report on each BitTorrent connection of a packet capture",
    options: &[
        PIECES,
        TORRENT_OF_CAPTURE,
        LIMIT,
        ROWS_OF_CAPTURE,
        STREAM_OF_CAPTURE,
        JSON_OF_CAPTURE,
        ONLY_OF_CAPTURE,
        PEER_OF_CAPTURE,
        STRICT_STATUS,
    ],
    operands: &[PACKETS],
    after: "\
Example:
  bt_tool capture small.pcap

Exit status:
  0    No direction that is reported is refused under the lenient rules; one that was cut off isn't counted
  1    A direction that is reported is refused under the lenient rules
  2    Usage error
  3    No BitTorrent connection was found, or none of the number of '--stream', FILE is no capture, a read or a write failed, or the program is out of memory
  4    With '--strict-status': no direction is refused, but one was read in part only
  141  The output pipe was closed, as after '| head'",
};

pub(crate) const LOOP: CommandText = CommandText {
    name: "loop",
    usage: LOOP_USAGE,
    about: "Fetches the metadata on standard input from itself, over a TCP connection",
    options: &[BEP, LIMIT_OF_ENDS],
    operands: &[],
    after: "\
Example:
  bt_tool loop < metadata.bin

Exit status:
  0    The metadata was fetched
  1    Nothing was fetched, or the metadata has a wrong size
  2    Usage error
  3    A read or a write failed, the connection did, or the program is out of memory
  141  The output pipe was closed, as after '| head'",
};

pub(crate) const FETCH: CommandText = CommandText {
    name: "fetch",
    usage: FETCH_USAGE,
    about: "Fetches the metadata of a torrent from peers (BEP 9), and writes it on standard output; without an ADDRESS and '--peers' it finds the peers as 'peers' does",
    options: &[
        PEERS,
        AT_ONCE,
        FREE,
        LIMIT_OF_ENDS,
        TIMEOUT,
        WINDOW,
        MAX_SIZE,
        TORRENT,
        JSON_OF_FETCH,
        TRACKER,
        DHT,
        NO_TRACKERS,
        NO_DHT,
        LOCAL,
    ],
    operands: &[INFOHASH, ADDRESS],
    after: "\
Example:
  bt_tool fetch --torrent a9993e364706816aba3e25717850c26c9cd0d89d 192.0.2.1:6881 > a.torrent

Exit status:
  0    The metadata was fetched
  1    No peer gave the metadata
  2    Usage error, or a line of the '--peers' file names no peer
  3    A read or a write failed, or the program is out of memory
  141  The output pipe was closed, as after '| head'",
};

pub(crate) const PEERS_OF_LINK: CommandText = CommandText {
    name: "peers",
    usage: PEERS_OF_LINK_USAGE,
    about: "Finds peers of a magnet link by its trackers and the DHT (BEP 5, 15, 23), and prints a line for each",
    options: &[TRACKER, DHT, NO_TRACKERS, NO_DHT, LOCAL],
    operands: &[INFOHASH],
    after: "\
Example:
  bt_tool peers --no-dht --tracker udp://192.0.2.1:6969 a9993e364706816aba3e25717850c26c9cd0d89d

Exit status:
  0    A peer was found
  1    No peer was found
  2    Usage error
  3    A write failed, or the program is out of memory
  141  The output pipe was closed, as after '| head'",
};

pub(crate) const SERVE: CommandText = CommandText {
    name: "serve",
    usage: SERVE_USAGE,
    about: "Serves the metadata of a torrent to peers (BEP 9), and prints a line for each connection",
    options: &[
        LISTEN,
        FREE,
        LIMIT_OF_ENDS,
        TIMEOUT,
        EXIT_AFTER,
        MAX_CONNECTIONS,
    ],
    operands: &[METADATA],
    after: "\
Example:
  bt_tool serve --listen 127.0.0.1:6881 a.torrent

Exit status:
  0    As many connections as '--exit-after' says have ended
  1    FILE has no metadata
  2    Usage error
  3    FILE can't be read, it can't listen there, or the program is out of memory",
};

/// How the program is called.
pub(crate) const CALL: &str = "bt_tool [COMMAND] [OPTIONS] [FILE]";

/// What the program does.
pub(crate) const ABOUT: &str =
    "Parses, checks and generates the BitTorrent peer protocol (BEP 3, 5, 6, 9 and 10)";

/// What follows the commands in the program's help.
pub(crate) const AFTER: &str = "\
'bt_tool COMMAND --help' prints the options, an example and the exit statuses of a command. Options stand after
the command. Without a command and options, 'show' reads standard input.

Example:
  bt_tool show --other sent-by-receiver.bin stream.bin

Exit status:
  0    The stream or the script is accepted, or the command did its work
  1    The stream or the script is refused, or the command got no result
  2    Usage error
  3    A read or a write failed, the network did, or the program is out of memory
  141  The output pipe was closed, as after '| head'";

/// Returns how the command with this name is called, or the program if there is no such command.
pub(crate) fn usage_of(name: &str) -> &'static str {
    match name {
        "show" => SHOW_USAGE,
        "check" => CHECK_USAGE,
        "unpack" => UNPACK_USAGE,
        "pack" => PACK_USAGE,
        "link" => LINK_USAGE,
        "capture" => CAPTURE_USAGE,
        "loop" => LOOP_USAGE,
        "fetch" => FETCH_USAGE,
        "peers" => PEERS_OF_LINK_USAGE,
        "serve" => SERVE_USAGE,
        _ => CALL,
    }
}
