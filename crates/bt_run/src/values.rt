//! The receiver that the texts of options describe, and when hints are printed. Finding the options isn't done here.
ghost use Rattle.std.specs.Prelude.{◌≡◌, ◌≤◌, ℕ, List, option_map, option_and_then, IfOk, IfErr, IfSome, MatchResult, Some};
ghost use Rattle.std.specs.Char.{is_ascii_digit};
ghost use Rattle.std.specs.List.{list_all};
ghost use Rattle.bt_ext.specs.Ids.{metadata_id, donthave_id};
ghost use Rattle.bt_run.specs.Options.{
  number_of,
  number_in,
  reserved_in,
  pieces_in,
  metadata_id_in,
  donthave_id_in,
  unless_same,
  info_hash_in,
  rules_in,
  limit_in,
  hints_in,
  IsReceiver,
  IsWrong,
  first_wrong,
};

use crate::commands::{
    DEFAULT_LIMIT, DEFAULT_METADATA_ID, DEFAULT_RESERVED, Hints, Job, default_rules,
};
use bt_ext::{ExtId, Registered, Rules};
use bt_wire::{Own, Reserved};
use hex::FromHex;

/// The texts of the options; `None` if one isn't given.
#[derive(Clone, Copy, Debug)]
pub struct Written<'a> {
    /// `--reserved`
    pub reserved: Option<&'a str>,
    /// `--pieces`
    pub pieces: Option<&'a str>,
    /// `--metadata-id`
    pub metadata_id: Option<&'a str>,
    /// `--donthave-id`
    pub donthave_id: Option<&'a str>,
    /// `--info-hash`
    pub info_hash: Option<&'a str>,
    /// `--rules`
    pub rules: Option<&'a str>,
    /// `--limit`
    pub limit: Option<&'a str>,
}

/// An option.
#[derive(Clone, Copy, PartialEq, Eq, Debug)]
pub enum Setting {
    /// `--reserved`
    Reserved,
    /// `--pieces`
    Pieces,
    /// `--metadata-id`
    MetadataId,
    /// `--donthave-id`
    DonthaveId,
    /// `--info-hash`
    InfoHash,
    /// `--rules`
    Rules,
    /// `--limit`
    Limit,
}

/// Returns whether the text has only decimal digits.
fn are_digits(text: &[u8]) -> bool
    ensures { result ≡ list_all is_ascii_digit text.now }
{
    text.iter().all(|byte| byte.is_ascii_digit())
}

/// Parses a decimal number below 2^32 without a sign.
///
/// Leading zeros are allowed; `None` for any other text.
#[tactic(auto, using(crate::proofs::Numbers::parsed_number, crate::proofs::Numbers::other_text))]
pub fn number(text: &str) -> Option<u32>
    ensures { result ≡ number_of text.now }
{
    if !are_digits(text.as_bytes()) {
        return None;
    }
    text.parse::<u32>().ok()
}

/// Parses a decimal number from `low` to `high`, without a sign.
///
/// Leading zeros are allowed; `None` for any other text.
pub fn number_within(text: &str, low: u32, high: u32) -> Option<u32>
    ensures { result ≡ number_in low high text.now }
{
    let value = number(text)?;
    if low <= value && value <= high {
        Some(value)
    } else {
        None
    }
}

/// Returns the bits of `--reserved`.
fn read_reserved(text: Option<&str>) -> Option<Reserved>
    ensures { option_map (λ r. r.0) result ≡ reserved_in (option_map (λ s. s.now) text.entry) }
{
    match text {
        None => Some(Reserved(DEFAULT_RESERVED)),
        Some(digits) => {
            let bytes = <[u8; 8] as FromHex>::from_hex(digits).ok()?;
            Some(Reserved(u64::from_be_bytes(bytes)))
        }
    }
}

/// Returns the count of `--pieces`.
fn read_pieces(text: Option<&str>) -> Option<Option<u32>>
    ensures { result ≡ pieces_in (option_map (λ s. s.now) text.entry) }
{
    match text {
        None => Some(None),
        Some(digits) => Some(Some(number(digits)?)),
    }
}

/// Returns the id of `--metadata-id`, of which 0 is none.
fn read_metadata_id(text: Option<&str>) -> Option<Option<ExtId>>
    ensures { result ≡ metadata_id_in (option_map (λ s. s.now) text.entry) }
{
    match text {
        None => Some(ExtId::new(DEFAULT_METADATA_ID)),
        Some(digits) => Some(ExtId::new(number_within(digits, 0, 255)? as u8)),
    }
}

/// Returns the id of `--donthave-id`, of which 0 is none.
fn read_donthave_id(text: Option<&str>) -> Option<Option<ExtId>>
    ensures { result ≡ donthave_id_in (option_map (λ s. s.now) text.entry) }
{
    match text {
        None => Some(None),
        Some(digits) => Some(ExtId::new(number_within(digits, 0, 255)? as u8)),
    }
}

/// Returns the ids of `ut_metadata` and of `--donthave-id`, if they differ.
fn read_ids(metadata: Option<ExtId>, text: Option<&str>) -> Option<Registered>
    ensures metadata { IfSome result (λ reg. metadata_id reg ≡ metadata) }
    ensures donthave { option_map donthave_id result ≡ option_and_then (unless_same metadata) (donthave_id_in (option_map (λ s. s.now) text.entry)) }
{
    let donthave = read_donthave_id(text)?;
    Registered::new(metadata, donthave).ok()
}

/// Returns the bytes of `--info-hash`.
fn read_info_hash(text: Option<&str>) -> Option<Option<[u8; 20]>>
    ensures { result ≡ info_hash_in (option_map (λ s. s.now) text.entry) }
{
    match text {
        None => Some(None),
        Some(digits) => Some(Some(<[u8; 20] as FromHex>::from_hex(digits).ok()?)),
    }
}

/// Returns the rules of `--rules`.
fn read_rules(job: Job, text: Option<&str>) -> Option<Rules>
    ensures { result ≡ rules_in job (option_map (λ s. s.now) text.entry) }
{
    match text {
        None => Some(default_rules(job)),
        Some(name) if name == "free" => Some(Rules::Free),
        Some(name) if name == "bep" => Some(Rules::Bep),
        Some(_) => None,
    }
}

/// Returns the limit of `--limit`.
fn read_limit(text: Option<&str>) -> Option<u32>
    ensures { result ≡ limit_in (option_map (λ s. s.now) text.entry) }
{
    match text {
        None => Some(DEFAULT_LIMIT),
        Some(digits) => number_within(digits, 1, 1_048_576),
    }
}

/// Returns when a hint is printed, by the text of `--hints`.
///
/// `None` if that is no value of it.
pub fn read_hints(text: Option<&str>) -> Option<Hints>
    ensures { result ≡ hints_in (option_map (λ s. s.now) text.entry) }
{
    match text {
        None => Some(Hints::Auto),
        Some(name) if name == "auto" => Some(Hints::Auto),
        Some(name) if name == "always" => Some(Hints::Always),
        Some(name) if name == "never" => Some(Hints::Never),
        Some(_) => None,
    }
}

/// Returns the receiver that the options of a command describe.
///
/// # Errors
/// The first option, in the order of `Setting`, whose text is no value of it.
pub fn own_of(job: Job, written: &Written<'_>) -> Result<Own, Setting>
    ensures value { MatchResult result (λ own. IsReceiver job written.now own) (λ setting. IsWrong job written.now setting) }
    ensures first { IfErr result (λ setting. first_wrong job written.now ≡ Some setting) }
    ensures limited { IfOk result (λ own. (1 ≤ own.limit) × (own.limit ≤ 1048576)) }
{
    let reserved = read_reserved(written.reserved).ok_or(Setting::Reserved)?;
    let pieces = read_pieces(written.pieces).ok_or(Setting::Pieces)?;
    let metadata = read_metadata_id(written.metadata_id).ok_or(Setting::MetadataId)?;
    let reg = read_ids(metadata, written.donthave_id).ok_or(Setting::DonthaveId)?;
    let info_hash = read_info_hash(written.info_hash).ok_or(Setting::InfoHash)?;
    let rules = read_rules(job, written.rules).ok_or(Setting::Rules)?;
    let limit = read_limit(written.limit).ok_or(Setting::Limit)?;
    Ok(Own {
        reserved,
        info_hash,
        pieces,
        reg,
        rules,
        limit,
    })
}
