//! A datagram of the DHT (BEP 5, "KRPC Protocol"), which is one bencoded dictionary.
ghost use Rattle.std.specs.Prelude.{IfOk};
ghost use Rattle.bt_dht.specs.Datagrams.{IsReadAs};

use bt_bencode::{ReadError, Value, read_dict};
use std::alloc::{AllocError, Global};

/// Parses a datagram: returns the dictionary that it is.
///
/// Returns `None` if it isn't one bencoded dictionary within the limits of `bt_bencode`, or if bytes follow the dictionary.
///
/// # Errors
/// `AllocError` when out of memory.
pub fn read_datagram(alloc: Global, datagram: &[u8]) -> Result<Option<Value>, AllocError>
    ensures { IfOk result (IsReadAs datagram.now) }
{
    match read_dict(alloc, datagram) {
        Ok((value, n)) => {
            if n < datagram.len() {
                return Ok(None);
            }
            Ok(Some(value))
        }
        Err(ReadError::Memory) => Err(AllocError),
        Err(ReadError::Impossible { .. }) => Ok(None),
        Err(ReadError::Cut) => Ok(None),
    }
}
