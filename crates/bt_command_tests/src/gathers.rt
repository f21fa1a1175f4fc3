//! The addresses of a fetch while a search finds more.

use bt_end::Progress;
use bt_fetch::{Device, Ending, TcpSwarm, Watcher};
use bt_gather::{Finder, Gather};
use std::alloc::{AllocError, Global};
use std::net::{Ipv4Addr, SocketAddr};
use std::test::Fail;

/// Hears which addresses were added: their ports, in order. The others are 0.
#[derive(Drop)]
struct Noted {
    ports: [u16; 4],
    count: usize,
}

impl Watcher for Noted {
    ghost use Rattle.std.specs.Prelude.{None};

    ghost heard = { λ _. None };

    fn added(&mut self, address: SocketAddr) {
        if let Some(port) = self.ports.get_mut(self.count) {
            *port = address.port();
        }
        self.count = self.count.saturating_add(1);
    }

    fn dialled(&mut self, _address: usize, _is_begun: bool) {}

    fn came(&mut self, _address: usize, _progress: Progress, _time: u64) {}

    fn ended(&mut self, _address: usize, _ending: Ending) {}
}

/// Returns an address of this host.
fn local(port: u16) -> SocketAddr {
    SocketAddr::from((Ipv4Addr::LOCALHOST, port))
}

/// Finds an address a turn, with these ports, as long as it is urgent.
#[derive(Drop)]
struct Script {
    ports: &'static [u16],
    found: Vec<SocketAddr>,
    has_ended: bool,
}

impl Finder for Script {
    ghost found = { λ s. s.found.items };

    ghost has_ended = { λ s. s.has_ended };

    fn found(&self) -> &[SocketAddr] {
        self.found.as_slice()
    }

    fn turn(&mut self, is_urgent: bool) -> bool {
        let Some(port) = self.ports.get(self.found.len()) else {
            return false;
        };
        is_urgent && self.found.push(local(*port)).is_ok()
    }

    fn end(&mut self) {
        self.has_ended = true;
    }
}

/// A fetch from ports 9 and 10, whose search finds these.
type Fetching<'a> = Gather<TcpSwarm<'a, HostRuntime, Noted>, Script>;

fn fetching<'a>(
    rt: &'a HostRuntime,
    alloc: Global,
    ports: &'static [u16],
) -> Result<Fetching<'a>, AllocError> {
    let named = vec![in alloc; local(9), local(10)]?;
    let watcher = Noted {
        ports: [0; 4],
        count: 0,
    };
    let swarm = TcpSwarm::new(rt, alloc, &[], watcher, 8);
    let script = Script {
        ports,
        found: Vec::new(alloc),
        has_ended: false,
    };
    Ok(Gather::new(named, swarm, script))
}

/// After each turn what was found is added at the end, except what was named. Once nothing is found any more, no more come.
#[test]
fn found_addresses_follow(rt: HostRuntime) -> Result<(), Fail> {
    let mut gather = fetching(&rt, rt.alloc(), &[11, 10, 12])?;
    assert!(rt; gather.known() == 2 && gather.most() == 202);
    let mut known = [0usize; 6];
    for count in &mut known {
        let more = gather.more();
        *count = if more {
            gather.known()
        } else {
            100 + gather.known()
        };
        gather.look();
    }
    assert!(rt; known == [2, 3, 3, 4, 104, 104], "{known:?}");
    let (swarm, script) = gather.finish();
    assert!(rt; script.has_ended);
    assert!(rt; swarm.watcher().ports == [11, 12, 0, 0]);
    Ok(())
}

/// A search isn't urgent any more once a peer gave something.
#[test]
fn a_search_is_less_urgent_then(rt: HostRuntime) -> Result<(), Fail> {
    let mut gather = fetching(&rt, rt.alloc(), &[11, 12])?;
    gather.look();
    let progress = Progress {
        size: 3,
        blocks: 1,
        held: 0,
    };
    gather.came(0, progress);
    gather.look();
    assert!(rt; !gather.more() && gather.known() == 3);
    Ok(())
}
