//! The bencoded dictionary that bytes begin with, judged for C.
ghost use Rattle.std.specs.Prelude.{◌≡◌, ◌≢◌, ◌≤◌, ◌<◌, length};
ghost use Rattle.bt_c.specs.Dictionaries.{IsDictionary, IsNoDictionary};

use crate::reader::{ITEM, MORE, REFUSED};
use bt_bencode::{Bad, check};
use bt_torrent::is_dictionary;

/// Judges the bencoded dictionary that the bytes begin with.
///
/// Its limits are those of messages; if the bytes are one dictionary and no more, its strings may be of any length.
///
/// Returns 1 if there is one, and `size` is how many bytes it has. Otherwise `size` is how many of the bytes begin one within the
/// limits of messages: it returns 0 if those are all, and 2 if the next one can't be part of it.
#[unsafe(no_mangle)]
pub extern "C" fn bt_check_dictionary(bytes: &[u8], size: &mut u64) -> u32
    ensures one { result ≡ 1 → IsDictionary bytes.now size.new }
    ensures none { result ≢ 1 → IsNoDictionary bytes.now size.new }
    ensures cut { result ≡ 0 → size.new ≡ length bytes.now }
    ensures refused { result ≡ 2 → size.new < length bytes.now }
    ensures status { result ≤ 2 }
{
    match check(bytes) {
        Ok((_, n)) => {
            *size = n as u64;
            ITEM
        }
        Err(_) if is_dictionary(bytes) => {
            *size = bytes.len() as u64;
            ITEM
        }
        Err(Bad::Impossible { at }) => {
            *size = at as u64;
            REFUSED
        }
        Err(Bad::Cut) => {
            *size = bytes.len() as u64;
            MORE
        }
    }
}
