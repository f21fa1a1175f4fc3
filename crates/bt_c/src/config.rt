//! What an end is made with, as a struct of C.
ghost use Rattle.std.specs.Prelude.{◌≡◌, IfOk};
ghost use Rattle.bt_c.specs.Readers.{own_of as own_by};
ghost use Rattle.bt_c.specs.Configs.{announce_by, window_by, IsRoleOf, IsConfigOf};

use crate::receiver::{BtOwn, own_of};
use bt_end::{Announce, Config, Role, Window};
use bt_feed::Memory;
use std::alloc::Global;

/// What an end is made with.
#[repr(C)]
#[derive(Clone, Copy)]
pub struct BtEndConfig {
    /// How it receives. Its info hash has to be there, and its limit is 32,768 to 1,048,576.
    pub own: BtOwn,
    /// The greatest size of metadata that it fetches, or 0 for the greatest that there is.
    pub most: u64,
    pub peer_id: [u8; 20],
    /// What it says of its pieces: 1 that it has all, 2 that it has none, any other number nothing.
    pub announce: u8,
    /// How many blocks it asks for at once, 1 to 8. Any other number is 8.
    pub window: u8,
    /// What it does with metadata: 1 serves it, 2 fetches it, any other number neither.
    pub role: u8,
}

fn announce_of(announce: u8) -> Announce
    ensures { result ≡ announce_by announce }
{
    match announce {
        1 => Announce::All,
        2 => Announce::Nothing,
        _ => Announce::Silent,
    }
}

/// Returns the window of this many blocks.
pub fn window_of(blocks: u8) -> Window
    ensures { result ≡ window_by blocks }
{
    match Window::new(blocks) {
        Some(window) => window,
        None => Window::default(),
    }
}

fn role_of(alloc: Global, config: &BtEndConfig, metadata: &[u8]) -> Result<Role, Memory>
    ensures { IfOk result (λ r. IsRoleOf config.now.role config.now.most metadata.now r) }
{
    match config.role {
        1 => match Vec::from_slice(alloc, metadata) {
            Ok(metadata) => Ok(Role::Serve(metadata)),
            Err(_) => Err(Memory),
        },
        2 if config.most == 0 => Ok(Role::Fetch),
        2 => Ok(Role::FetchUpTo(config.most)),
        _ => Ok(Role::Watch),
    }
}

/// Returns what the struct describes. Metadata that is to be served is copied.
///
/// # Errors
/// `Memory` when out of memory.
pub fn config_of(alloc: Global, config: &BtEndConfig, metadata: &[u8]) -> Result<Config, Memory>
    ensures { IfOk result (λ c. IsConfigOf config.now metadata.now c) }
{
    let role = role_of(alloc, config, metadata)?;
    let peer_id = config.peer_id;
    Ok(Config {
        own: own_of(&config.own),
        peer_id,
        announce: announce_of(config.announce),
        window: window_of(config.window),
        role,
    })
}
