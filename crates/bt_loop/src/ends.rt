//! The two ends of `loop`: the left one serves the metadata, and the right one fetches it.
ghost use Rattle.std.specs.Prelude.{◌≡◌, ◌≤◌, true, false, length, Err, IfOk};
ghost use Rattle.sha1.specs.Sha1.{sha1};
ghost use Rattle.bt_end.specs.Configs.{is_bad_size};
ghost use Rattle.bt_loop.specs.Loops.{left_end, right_end};

use bt_end::{Announce, Config, End, EndError, Role, Window};
use bt_ext::{ExtId, Registered, Rules};
use bt_wire::{Own, Reserved};
use std::alloc::Global;

/// The reserved bits of both: those of the Fast Extension, of the DHT and of the Extension Protocol.
const RESERVED: u64 = 0x10_0005;

/// Makes the end that serves the metadata, whose SHA-1 is known; `limit` is in bytes.
///
/// # Errors
/// `BadSize` exactly if the metadata doesn't have 1 to 67,108,864 bytes, `Memory` when out of memory.
pub fn serving(
    alloc: Global,
    metadata: Vec<u8>,
    hash: [u8; 20],
    rules: Rules,
    limit: u32,
) -> Result<End, EndError>
    requires limit { (32768 ≤ limit) × (limit ≤ 1048576) }
    requires hash { hash ≡ sha1 metadata.items }
    ensures end { IfOk result (λ end. end ≡ left_end rules limit metadata.items) }
    ensures size { IfOk result (λ end. is_bad_size (length metadata.items) ≡ false) }
    ensures bad { result ≡ Err EndError.BadSize → is_bad_size (length metadata.items) ≡ true }
    ensures each { is_bad_size (length metadata.items) ≡ true → result ≡ Err EndError.BadSize }
{
    End::new(
        alloc,
        Config {
            own: Own {
                reserved: Reserved(RESERVED),
                info_hash: Some(hash),
                pieces: None,
                reg: Registered::metadata_only(ExtId::new(3)),
                rules,
                limit,
            },
            peer_id: *b"-BT0001-LLLLLLLLLLLL",
            announce: Announce::Silent,
            window: Window::default(),
            role: Role::Serve(metadata),
        },
    )
}

/// Makes the end that fetches metadata of this SHA-1; `limit` is in bytes.
///
/// # Errors
/// `Memory` when out of memory.
pub fn fetching(alloc: Global, hash: [u8; 20], rules: Rules, limit: u32) -> Result<End, EndError>
    requires { (32768 ≤ limit) × (limit ≤ 1048576) }
    ensures { IfOk result (λ end. end ≡ right_end rules limit hash) }
{
    End::new(
        alloc,
        Config {
            own: Own {
                reserved: Reserved(RESERVED),
                info_hash: Some(hash),
                pieces: None,
                reg: Registered::metadata_only(ExtId::new(9)),
                rules,
                limit,
            },
            peer_id: *b"-BT0001-RRRRRRRRRRRR",
            announce: Announce::Silent,
            window: Window::default(),
            role: Role::Fetch,
        },
    )
}
