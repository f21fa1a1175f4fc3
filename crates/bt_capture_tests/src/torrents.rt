//! What a .torrent says of its torrent. The hash is that of `sha1sum`.
use bt_torrent::{TorrentFile, read_torrent};
use std::test::Fail;

/// A torrent of two pieces, whose keys are out of order.
const FILE: &[u8] =
    b"d4:infod6:pieces40:pppppppppppppppppppppppppppppppppppppppp6:lengthi1ee8:announce1:xe";

const HASH: &[u8] =
    b"\xa1\x87\x21\xa7\xbd\x48\x62\x2d\x7e\x58\xc5\x4a\x91\xb7\x30\x1a\xa8\xcf\xb4\x62";

/// Whether this is a torrent of so many pieces, with the hash.
fn is_hashed(found: &TorrentFile, pieces: u32) -> bool {
    found.pieces == pieces && &found.info_hash[..] == HASH
}

#[test]
fn a_torrent_of_two_pieces(rt: HostRuntime) -> Result<(), Fail> {
    match read_torrent(FILE) {
        Ok(found) => assert!(rt; is_hashed(&found, 2)),
        Err(_) => assert!(rt; false),
    }
    Ok(())
}
