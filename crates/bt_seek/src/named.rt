//! Who asks, and whom the link and the user name.
ghost use Rattle.std.specs.Prelude.{◌≡◌, IfOk, OnOk, map};
ghost use Rattle.bt_seek.specs.Names.{names_of, nobody, site_of, with_named_node, with_page, with_tracker};

use crate::search::Ids;
use std::alloc::{AllocError, Global};
use std::net::SocketAddr;

/// A tracker over HTTP.
#[derive(Drop)]
pub struct Page {
    pub host: String,
    pub port: u16,
    /// The path and the query of its URL.
    pub target: Vec<u8>,
}

/// Who asks, and who was named: nobody else is asked, except whom an answer tells that counts.
#[derive(Drop)]
pub struct Named {
    pub ids: Ids,
    /// The trackers over UDP.
    pub trackers: Vec<SocketAddr>,
    /// The nodes of the DHT.
    pub nodes: Vec<SocketAddr>,
    /// The trackers over HTTP, by their numbers.
    pub pages: Vec<Page>,
}

/// Returns a tracker over HTTP.
fn page_of(alloc: Global, host: &str, port: u16, target: &[u8]) -> Result<Page, AllocError>
    ensures { IfOk result (λ page. site_of page ≡ record { host = host.now; port = port; target = target.now }) }
{
    let host = String::from_str(alloc, host)?;
    let mut copy = Vec::new(alloc);
    copy.extend_from_slice(target)?;
    Ok(Page {
        host,
        port,
        target: copy,
    })
}

impl Named {
    /// Returns that nobody was named.
    pub fn new(alloc: Global, ids: Ids) -> Named
        ensures { names_of result ≡ nobody ids }
    {
        Named {
            ids,
            trackers: Vec::new(alloc),
            nodes: Vec::new(alloc),
            pages: Vec::new(alloc),
        }
    }

    /// Adds a tracker over UDP.
    pub fn add_tracker(&mut self, address: SocketAddr) -> Result<(), AllocError>
        ensures { OnOk result (names_of self.new ≡ with_tracker address (names_of self.old)) }
    {
        self.trackers.push(address)?;
        Ok(())
    }

    /// Adds a node of the DHT.
    pub fn add_node(&mut self, address: SocketAddr) -> Result<(), AllocError>
        ensures { OnOk result (names_of self.new ≡ with_named_node address (names_of self.old)) }
    {
        self.nodes.push(address)?;
        Ok(())
    }

    /// Adds a tracker over HTTP.
    pub fn add_page(
        &mut self,
        alloc: Global,
        host: &str,
        port: u16,
        target: &[u8],
    ) -> Result<(), AllocError>
        ensures { OnOk result (names_of self.new ≡ with_page (record { host = host.now; port = port; target = target.now }) (names_of self.old)) }
    {
        let page = page_of(alloc, host, port, target)?;
        self.pages.push(page)?;
        Ok(())
    }
}
