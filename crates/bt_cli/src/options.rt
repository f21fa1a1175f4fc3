//! The command line, read by `clap`, which no other module uses. The program's `main` calls [`asked`].
ghost use Rattle.std.specs.Prelude.{◌≡◌, [], IfOk, map, option_map, string_bytes, codes, true, Some};
ghost use Rattle.std.specs.Str.{bytes_eq};
ghost use Rattle.clap.specs.Matches.{found_of, first_value};
ghost use Rattle.clap.specs.Values.{kind_of};
ghost use Rattle.bt_run.specs.Commands.{HasLimit, HasLoopLimit, job_of, as_json as job_as_json};
ghost use Rattle.bt_run.specs.Options.{rules_in, limit_in};
ghost use Rattle.bt_cli.specs.Commands.{HasNotice, HasText, IsLimited, IsShowByDefault};
ghost use Rattle.bt_cli.specs.Options.{IsAskedBy, IsChosen, IsRequested, IsWritten, files_in, given_in, json_in, lacks_command as lacks_command_by_rule, lacks_first, mistake_words, version_words};

use crate::capture::{CaptureRequest, capture_in};
use crate::commands::{Asked, Given, Hints, Job, Notice, Request, default_own};
use crate::fetch::{Mistake, fetch_asked};
use crate::serve::serve_asked;
use crate::texts::{
    ABOUT, AFTER, CALL, CAPTURE, CHECK, CommandText, FETCH, LINK, LOOP, OperandText, OptionText,
    PACK, PEERS_OF_LINK, SERVE, SHOW, UNPACK, usage_of,
};
use bt_ext::Rules;
use bt_peers::{copied, is_given, peers_asked};
use bt_run::values::{Setting, Written, own_of, read_hints};
use bt_wire::Own;
use clap::error::ErrorKind;
use clap::{Arg, ArgAction, ArgMatches, Command, Error};
use std::alloc::{AllocError, Global};

/// The name and the version, as `--version` prints them.
const VERSION: &str = "0.2.0";

/// What is wrong with several files.
const ONE_FILE: &str = "only 'check' takes more than one file";

/// What is wrong with a .torrent on standard input, if the capture is there.
const TORRENT_TWICE: &str = "'--torrent' and the capture can't both be standard input";

/// What is printed if the arguments aren't text.
pub const NO_TEXT: &str =
    "error: the words are no text\n\nUsage: bt_tool [COMMAND] [OPTIONS] [FILE]\n";

/// Returns the notice that a file of `--other` has no handshake.
///
/// It doesn't begin with a whole one.
///
/// # Errors
/// `AllocError` when out of memory.
pub fn no_handshake(alloc: Global, name: &str) -> Result<String, AllocError> {
    format!(in alloc;
        "error: '{name}', the file of '--other', doesn't begin with a whole handshake\n\nUsage: {CALL}\n"
    )
}

/// Returns the notice that a line of a list of peers names none.
///
/// # Errors
/// `AllocError` when out of memory.
pub fn no_peer(alloc: Global, name: &str, line: usize) -> Result<String, AllocError> {
    let usage = usage_of("fetch");
    format!(in alloc;
        "error: line {line} of '{name}', the file of '--peers', names no peer: IP:PORT, [IPv6]:PORT or HOST:PORT\n\nUsage: {usage}\n"
    )
}

/// Returns the notice that a list of peers is too long.
///
/// # Errors
/// `AllocError` when out of memory.
pub fn long_list(alloc: Global, name: &str) -> Result<String, AllocError> {
    let usage = usage_of("fetch");
    format!(in alloc;
        "error: '{name}', the file of '--peers', has more than 16777216 bytes\n\nUsage: {usage}\n"
    )
}

/// Returns whether a file's name is that of standard input.
pub fn is_input(name: &str) -> bool
    ensures { result ≡ bytes_eq name.now (codes "-") }
{
    name == "-"
}

/// Returns whether standard input is wanted as an option's file and as the command's.
fn wants_input_twice(named: &Option<String>, files: &[String]) -> bool {
    match named {
        Some(name) if is_input(name.as_str()) => {
            files.is_empty() || files.iter().any(|file| is_input(file.as_str()))
        }
        _ => false,
    }
}

/// Returns an option of a command.
fn option<'a>(alloc: Global, text: &OptionText) -> Result<Arg<'a>, AllocError> {
    let argument = Arg::new(alloc, text.name).long(text.name).help(text.help);
    let argument = if text.value.is_empty() {
        argument.action(ArgAction::SetTrue)
    } else {
        let action = if text.is_repeated {
            ArgAction::Append
        } else {
            ArgAction::Set
        };
        argument.value_name(text.value).action(action)
    };
    if text.alias.is_empty() {
        Ok(argument)
    } else {
        argument.alias(text.alias)
    }
}

/// Returns a word of a command that is no option.
fn operand<'a>(alloc: Global, text: &OperandText) -> Arg<'a> {
    let argument = Arg::new(alloc, text.name)
        .help(text.help)
        .required(text.is_required);
    if text.is_repeated {
        let least = if text.is_required { 1 } else { 0 };
        argument.num_args(least..).action(ArgAction::Append)
    } else {
        argument.action(ArgAction::Set)
    }
}

/// Returns a command with its options.
fn command_of<'a>(alloc: Global, text: &CommandText) -> Result<Command<'a>, AllocError> {
    let mut command = Command::new(alloc, text.name)
        .override_usage(text.usage)
        .about(text.about)
        .after_help(text.after);
    for option_text in text.options {
        command = command.arg(option(alloc, option_text)?)?;
    }
    for operand_text in text.operands {
        command = command.arg(operand(alloc, operand_text))?;
    }
    Ok(command)
}

/// Returns the command `show`.
fn show_command<'a>(alloc: Global) -> Result<Command<'a>, AllocError> {
    command_of(alloc, &SHOW)
}

/// Returns the command `check`.
fn check_command<'a>(alloc: Global) -> Result<Command<'a>, AllocError> {
    command_of(alloc, &CHECK)
}

/// Returns the command `unpack`.
fn unpack_command<'a>(alloc: Global) -> Result<Command<'a>, AllocError> {
    command_of(alloc, &UNPACK)
}

/// Returns the command `pack`.
fn pack_command<'a>(alloc: Global) -> Result<Command<'a>, AllocError> {
    command_of(alloc, &PACK)
}

/// Returns the command `link`.
fn link_command<'a>(alloc: Global) -> Result<Command<'a>, AllocError> {
    command_of(alloc, &LINK)
}

/// Returns the command `capture`.
fn capture_command<'a>(alloc: Global) -> Result<Command<'a>, AllocError> {
    command_of(alloc, &CAPTURE)
}

/// Returns the command `loop`.
fn loop_command<'a>(alloc: Global) -> Result<Command<'a>, AllocError> {
    command_of(alloc, &LOOP)
}

/// Returns the command `fetch`.
fn fetch_command<'a>(alloc: Global) -> Result<Command<'a>, AllocError> {
    command_of(alloc, &FETCH)
}

/// Returns the command `peers`.
fn peers_command<'a>(alloc: Global) -> Result<Command<'a>, AllocError> {
    command_of(alloc, &PEERS_OF_LINK)
}

/// Returns the command `serve`.
fn serve_command<'a>(alloc: Global) -> Result<Command<'a>, AllocError> {
    command_of(alloc, &SERVE)
}

/// Returns the program with its commands.
fn command_line<'a>(alloc: Global) -> Result<Command<'a>, AllocError> {
    Command::new(alloc, "bt_tool")
        .version(VERSION)
        .no_binary_name(true)
        .subcommand_required(true)
        .override_usage(CALL)
        .about(ABOUT)
        .after_help(AFTER)
        .subcommand(show_command(alloc)?)?
        .subcommand(check_command(alloc)?)?
        .subcommand(unpack_command(alloc)?)?
        .subcommand(pack_command(alloc)?)?
        .subcommand(link_command(alloc)?)?
        .subcommand(capture_command(alloc)?)?
        .subcommand(loop_command(alloc)?)?
        .subcommand(fetch_command(alloc)?)?
        .subcommand(peers_command(alloc)?)?
        .subcommand(serve_command(alloc)?)
}

/// Returns the job of a command, or `None` if there is no such command.
fn job_named(name: &str) -> Option<Job>
    ensures { result ≡ job_of name.now }
{
    match name {
        "show" => Some(Job::Show),
        "check" => Some(Job::Check),
        "unpack" => Some(Job::Unpack),
        "pack" => Some(Job::Pack),
        _ => None,
    }
}

/// Returns the job with `--json`, which changes only `show`.
fn as_json(json: bool, job: Job) -> Job
    ensures { result ≡ job_as_json json job }
{
    match job {
        Job::Show if json => Job::Json,
        _ => job,
    }
}

/// Returns the words of a mistake.
fn mistake_text(alloc: Global, usage: &str, what: &str) -> Result<String, AllocError>
    ensures { IfOk result (λ t. string_bytes t ≡ mistake_words usage.now what.now) }
{
    format!(in alloc; "error: {what}\n\nUsage: {usage}\n\nFor more information, try '--help'.\n")
}

/// Returns whether `--json` is given.
fn is_json(options: &ArgMatches<'_>) -> bool
    ensures { result ≡ json_in (found_of options.now) }
{
    match options.get_str("json") {
        Some(given) => given == "true",
        None => false,
    }
}

/// Returns the options of a command as they were written.
fn written<'a>(options: &ArgMatches<'a>) -> Written<'a>
    ensures { IsWritten (found_of options.now) result }
{
    Written {
        reserved: options.get_str("reserved"),
        pieces: options.get_str("pieces"),
        metadata_id: options.get_str("metadata-id"),
        donthave_id: options.get_str("donthave-id"),
        info_hash: options.get_str("info-hash"),
        rules: options.get_str("rules"),
        limit: options.get_str("limit"),
    }
}

/// Returns the name, the version, and the first digits of the digest over the sources, as `--version` prints them.
fn version_text(alloc: Global, sources: &str) -> Result<String, AllocError>
    ensures { IfOk result (λ t. string_bytes t ≡ version_words sources.now) }
{
    format!(in alloc; "bt_tool 0.2.0 (sources {sources})\n")
}

/// Returns the text of clap's answer: one that was asked for, or a mistake, which a line on the usage follows.
///
/// # Errors
/// `AllocError` if clap was out of memory, or the text's growth was refused.
fn told(alloc: Global, error: &Error, usage: &str, sources: &str) -> Result<Asked, AllocError>
    ensures limited { IfOk result IsLimited }
    ensures notice { IfOk result (HasNotice (kind_of error.now)) }
{
    match error.kind() {
        ErrorKind::OutOfMemory => Err(AllocError),
        ErrorKind::DisplayHelp => Ok(Asked::Told(Notice::Help, format!(in alloc; "{error}")?)),
        ErrorKind::DisplayVersion => {
            Ok(Asked::Told(Notice::Version, version_text(alloc, sources)?))
        }
        _ => Ok(Asked::Told(Notice::Usage, with_usage(alloc, error, usage)?)),
    }
}

/// Returns the text of clap's answer to a mistake, with a line on the usage.
fn with_usage(alloc: Global, error: &Error, usage: &str) -> Result<String, AllocError> {
    let text = format!(in alloc; "{error}")?;
    if text.as_str().contains("Usage: ") {
        return Ok(text);
    }
    format!(in alloc; "{text}\nUsage: {usage}\n")
}

/// Returns the text for words that are no command line.
fn mistake(alloc: Global, usage: &str, what: &str) -> Result<Asked, AllocError>
    ensures limited { IfOk result IsLimited }
    ensures told { IfOk result (HasText Notice.Usage) }
{
    let text = mistake_text(alloc, usage, what)?;
    Ok(Asked::Told(Notice::Usage, text))
}

/// Returns the job of a command with the receiver that its options describe, or what is wrong with them.
fn chosen(name: &str, options: &ArgMatches<'_>) -> Result<(Job, Own), &'static str>
    ensures chosen { IfOk result (λ p. IsChosen name.now (found_of options.now) p.0 p.1) }
    ensures limited { IfOk result (λ p. HasLimit p.1) }
{
    let Some(job) = job_named(name) else {
        return Err("there is no such command");
    };
    let job = as_json(is_json(options), job);
    match own_of(job, &written(options)) {
        Ok(own) => Ok((job, own)),
        Err(setting) => Err(expected(setting)),
    }
}

/// Returns what of the receiver the options give.
fn given(options: &ArgMatches<'_>) -> Given
    ensures { result ≡ given_in (found_of options.now) }
{
    Given {
        reserved: options.get_str("reserved").is_some(),
        metadata_id: options.get_str("metadata-id").is_some(),
        donthave_id: options.get_str("donthave-id").is_some(),
    }
}

/// Returns the file that an option names, if it is given.
fn named(
    alloc: Global,
    options: &ArgMatches<'_>,
    option: &str,
) -> Result<Option<String>, AllocError>
    ensures { IfOk result (λ o. option_map string_bytes o ≡ first_value (found_of options.now) option.now) }
{
    match options.get_str(option) {
        Some(name) => Ok(Some(String::from_str(alloc, name)?)),
        None => Ok(None),
    }
}

/// Returns the files that are read.
fn files(alloc: Global, options: &ArgMatches<'_>) -> Result<Vec<String>, AllocError>
    ensures { IfOk result (λ v. map string_bytes v.items ≡ files_in (found_of options.now)) }
{
    match options.get_strs("FILE") {
        Some(names) => copied(alloc, names),
        None => Ok(Vec::new(alloc)),
    }
}

/// Why a command's options and files ask for nothing.
enum NoRequest {
    /// What is wrong with them.
    Wrong(&'static str),
    /// A growth was refused.
    Memory,
}

impl From<AllocError> for NoRequest {
    ghost use Rattle.bt_cli.specs.declared.options.NoRequest.TheVariants.{Memory};

    ghost from_gives = { λ _ e. e ≡ Memory };

    fn from(_: AllocError) -> NoRequest {
        NoRequest::Memory
    }
}

/// Returns what a command with its options and files asks for.
fn requested(alloc: Global, name: &str, options: &ArgMatches<'_>) -> Result<Request, NoRequest>
    ensures requested { IfOk result (IsRequested name.now (found_of options.now)) }
    ensures limited { IfOk result (λ r. HasLimit r.own) }
{
    let (job, own) = match chosen(name, options) {
        Ok(chosen) => chosen,
        Err(what) => return Err(NoRequest::Wrong(what)),
    };
    let files = files(alloc, options)?;
    if files.len() > 1 && job != Job::Check {
        return Err(NoRequest::Wrong(ONE_FILE));
    }
    let Some(hints) = read_hints(options.get_str("hints")) else {
        return Err(NoRequest::Wrong("'--hints' takes 'auto', 'always' or 'never'"));
    };
    let other = named(alloc, options, "other")?;
    if wants_input_twice(&other, &files) {
        return Err(NoRequest::Wrong("'--other' and the stream can't both be standard input"));
    }
    Ok(Request {
        job,
        own,
        given: given(options),
        other,
        hints,
        files,
    })
}

/// Returns the rules and the limit of `loop`, or what is wrong with its options.
fn looped(options: &ArgMatches<'_>) -> Result<(Rules, u32), &'static str>
    ensures limited { IfOk result (λ p. HasLoopLimit p.1) }
    ensures rules { IfOk result (λ p. rules_in Job.Check (first_value (found_of options.now) (codes "rules")) ≡ Some p.0) }
    ensures limit { IfOk result (λ p. limit_in (first_value (found_of options.now) (codes "limit")) ≡ Some p.1) }
{
    let (rules, limit) = (options.get_str("rules"), options.get_str("limit"));
    let written = Written {
        reserved: None,
        pieces: None,
        metadata_id: None,
        donthave_id: None,
        info_hash: None,
        rules,
        limit,
    };
    match own_of(Job::Check, &written) {
        Ok(own) if own.limit >= 32_768 => Ok((own.rules, own.limit)),
        Ok(_) | Err(Setting::Limit) => Err(
            "'--limit' of 'loop' takes a number from 32768 to 1048576",
        ),
        Err(setting) => Err(expected(setting)),
    }
}

/// Returns what an option's value has to be.
fn expected(setting: Setting) -> &'static str {
    match setting {
        Setting::Reserved => "'--reserved' takes 16 hex digits",
        Setting::Pieces => "'--pieces' takes a number from 0 to 4294967295",
        Setting::MetadataId => "'--metadata-id' takes a number from 0 to 255",
        Setting::DonthaveId =>
            "'--donthave-id' takes a number from 0 to 255, other than that of '--metadata-id'",
        Setting::InfoHash => "'--info-hash' takes 40 hex digits",
        Setting::Rules => "'--rules' takes 'free' or 'bep'",
        Setting::Limit => "'--limit' takes a number from 1 to 1048576",
    }
}

/// Returns whether a first word begins with '-' and asks for no text, so that a command is missing before it.
fn lacks_command(word: &str) -> bool
    ensures { result ≡ lacks_command_by_rule word.now }
{
    match word {
        "-h" | "--help" | "-V" | "--version" => false,
        _ => word.as_bytes().first() == Some(&b'-'),
    }
}

/// Returns what the files of `link` ask for.
fn link_asked(alloc: Global, name: &str, options: &ArgMatches<'_>) -> Result<Asked, AllocError>
    requires { bytes_eq name.now (codes "link") ≡ true }
    ensures limited { IfOk result IsLimited }
    ensures asked { IfOk result (IsAskedBy name.now (found_of options.now)) }
{
    let files = files(alloc, options)?;
    if files.len() > 1 {
        return mistake(alloc, usage_of(name), ONE_FILE);
    }
    Ok(Asked::Link(files))
}

/// Returns what the options and files of `capture` ask for.
fn capture_asked(alloc: Global, name: &str, options: &ArgMatches<'_>) -> Result<Asked, AllocError>
    requires { bytes_eq name.now (codes "capture") ≡ true }
    ensures limited { IfOk result IsLimited }
    ensures asked { IfOk result (IsAskedBy name.now (found_of options.now)) }
{
    let job = match capture_in(options) {
        Ok(job) => job,
        Err(what) => return mistake(alloc, usage_of(name), what),
    };
    let torrent = named(alloc, options, "torrent")?;
    let files = files(alloc, options)?;
    if files.len() > 1 {
        return mistake(alloc, usage_of(name), ONE_FILE);
    }
    if wants_input_twice(&torrent, &files) {
        return mistake(alloc, usage_of(name), TORRENT_TWICE);
    }
    Ok(Asked::Capture(CaptureRequest {
        job,
        torrent,
        files,
        is_strict: is_given(options, "strict-status"),
    }))
}

/// Returns what the options of `loop` ask for.
fn loop_asked(alloc: Global, name: &str, options: &ArgMatches<'_>) -> Result<Asked, AllocError>
    requires { bytes_eq name.now (codes "loop") ≡ true }
    ensures limited { IfOk result IsLimited }
    ensures asked { IfOk result (IsAskedBy name.now (found_of options.now)) }
{
    match looped(options) {
        Ok((rules, limit)) => Ok(Asked::Loop(rules, limit)),
        Err(what) => mistake(alloc, usage_of(name), what),
    }
}

/// Returns what went wrong with the words of `fetch`, `peers` or `serve`.
fn mistaken(alloc: Global, name: &str, why: Mistake) -> Result<Asked, AllocError>
    ensures limited { IfOk result IsLimited }
    ensures told { IfOk result (HasText Notice.Usage) }
{
    match why {
        Mistake::Text(what) => mistake(alloc, usage_of(name), what),
        Mistake::Link(what, place) => {
            let text = format!(in alloc; "the magnet link has {what} at offset {place}")?;
            mistake(alloc, usage_of(name), text.as_str())
        }
        Mistake::Tracker(place) => {
            let text = format!(in alloc;
                "'--tracker' takes udp://HOST:PORT or http://HOST[:PORT][/PATH]: it is something else from offset {place} on"
            )?;
            mistake(alloc, usage_of(name), text.as_str())
        }
        Mistake::Memory => Err(AllocError),
    }
}

/// Returns what the options and files of a job ask for.
fn job_asked(alloc: Global, name: &str, options: &ArgMatches<'_>) -> Result<Asked, AllocError>
    ensures limited { IfOk result IsLimited }
    ensures asked { IfOk result (IsAskedBy name.now (found_of options.now)) }
{
    match requested(alloc, name, options) {
        Ok(request) => Ok(Asked::Run(request)),
        Err(NoRequest::Wrong(what)) => mistake(alloc, usage_of(name), what),
        Err(NoRequest::Memory) => Err(AllocError),
    }
}

/// Returns what a command asks for with its options and files.
fn command_asked(alloc: Global, name: &str, options: &ArgMatches<'_>) -> Result<Asked, AllocError>
    ensures limited { IfOk result IsLimited }
    ensures asked { IfOk result (IsAskedBy name.now (found_of options.now)) }
{
    match name {
        "link" => link_asked(alloc, name, options),
        "capture" => capture_asked(alloc, name, options),
        "loop" => loop_asked(alloc, name, options),
        "fetch" => match fetch_asked(alloc, options) {
            Ok(job) => Ok(Asked::Fetch(job)),
            Err(why) => mistaken(alloc, name, why),
        },
        "peers" => match peers_asked(alloc, options) {
            Ok(job) => Ok(Asked::Peers(job)),
            Err(why) => mistaken(alloc, name, why),
        },
        "serve" => match serve_asked(alloc, options) {
            Ok(job) => Ok(Asked::Serve(job)),
            Err(why) => mistaken(alloc, name, why),
        },
        _ => job_asked(alloc, name, options),
    }
}

/// Returns what words ask for of which the first may be a command.
fn words_asked(alloc: Global, words: &[String], sources: &str) -> Result<Asked, AllocError>
    ensures { IfOk result IsLimited }
{
    let first = match words.first() {
        Some(word) => word.as_str(),
        None => "",
    };
    let matches = match command_line(alloc)?.try_get_matches_from(words) {
        Ok(matches) => matches,
        Err(error) => return told(alloc, &error, usage_of(first), sources),
    };
    match matches.subcommand() {
        Some((name, options)) => command_asked(alloc, name, options),
        None => mistake(alloc, CALL, "a command is missing"),
    }
}

/// Returns the text for an option that stands before a command, or without one.
fn no_command(alloc: Global, word: &str) -> Result<Asked, AllocError>
    ensures limited { IfOk result IsLimited }
    ensures told { IfOk result (HasText Notice.Usage) }
{
    let what = format!(in alloc; "a command has to stand before '{word}'")?;
    mistake(alloc, CALL, what.as_str())
}

/// Returns what the words after the program's name ask for.
///
/// `sources` are the first digits of the digest over the program's sources.
///
/// # Errors
/// `AllocError` if the program is out of memory.
#[inline(never)]
pub fn asked(alloc: Global, words: &[String], sources: &str) -> Result<Asked, AllocError>
    ensures limited { IfOk result IsLimited }
    ensures default { words.now ≡ [] → IfOk result IsShowByDefault }
    ensures command { lacks_first (map string_bytes words.now) ≡ true → IfOk result (HasText Notice.Usage) }
{
    let Some(first) = words.first() else {
        return Ok(show_by_default(alloc));
    };
    if lacks_command(first.as_str()) {
        return no_command(alloc, first.as_str());
    }
    words_asked(alloc, words, sources)
}

/// Returns what no words at all ask for.
fn show_by_default(alloc: Global) -> Asked
    ensures default { IsShowByDefault result }
    ensures limited { IsLimited result }
{
    Asked::Run(Request {
        job: Job::Show,
        own: default_own(),
        given: Given {
            reserved: false,
            metadata_id: false,
            donthave_id: false,
        },
        other: None,
        hints: Hints::Auto,
        files: Vec::new(alloc),
    })
}
