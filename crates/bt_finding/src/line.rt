//! The lines of peers.
ghost use Rattle.std.specs.Prelude.{◌≡◌, ◌++◌, OnOk};
ghost use Rattle.std.specs.List.{flat_map};
ghost use Rattle.bt_finding.specs.Lines.{peer_line};

use std::alloc::{AllocError, Global};
use std::net::SocketAddr;

/// Adds the line of a peer: `IP:PORT`, or `[IPv6]:PORT`.
fn push_line(alloc: Global, peer: SocketAddr, text: &mut Vec<u8>) -> Result<(), AllocError>
    ensures { OnOk result (text.new.items ≡ text.old.items ++ peer_line peer) }
{
    let line = format!(in alloc; "{peer}\n")?;
    text.extend_from_slice(line.as_bytes())?;
    Ok(())
}

/// Adds the lines of peers, in order.
pub fn push_lines(alloc: Global, peers: &[SocketAddr], text: &mut Vec<u8>) -> Result<(), AllocError>
    ensures { OnOk result (text.new.items ≡ text.old.items ++ flat_map peer_line peers.now) }
{
    for peer in peers {
        push_line(alloc, *peer, text)?;
    }
    Ok(())
}
