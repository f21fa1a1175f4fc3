//! What is kept of each connection.
ghost use Rattle.std.specs.Prelude.{◌≡◌, ◌≤◌, ◌<◌, ◌-◌, ◌+◌, ◌∷◌, ℕ, [], Some, None, OnOk, OnErr, IfOk, IfSome, true, false, if◌then◌else◌};
ghost use Rattle.std.specs.List.{sum_by};
ghost use Rattle.std.specs.BTreeMap.{values, btree_map_len};
ghost use Rattle.std.specs.Option.{option_map};
ghost use Rattle.bt_packet.specs.Utp.{utp_packet};
ghost use Rattle.bt_order.specs.Links.{counted, StaysLink};

use crate::connection::{Connection, Told, came_of};
use bt_order::Link;
use bt_packet::{Address, Utp};
use std::alloc::{AllocError, Global};
use std::collections::BTreeMap;

/// How many bytes are held at most, of all connections together.
const POOL: usize = 32 << 20;

/// A connection, and what its packets led to.
#[derive(Drop)]
pub struct Entry {
    pub connection: Connection,
    pub link: Link,
}

/// The connections, each by its initiator, its acceptor and the id of its SYN.
#[derive(Drop)]
pub struct Entries {
    map: BTreeMap<(Address, Address, u16), Entry>,
    /// How many bytes are held.
    held: usize,
    ghost sums: { held ≡ sum_by (λ e. counted e.link) (values map) },
    ghost bound: { held ≤ 33554432 },
}

impl Entry {
    ghost use Rattle.bt_utp.specs.Taken.{TurnsEntry};

    /// Turns a packet into a segment, and writes the segment's payload.
    pub fn turn(
        &mut self,
        datagram: &Utp<'_>,
        room: usize,
        bytes: &mut Vec<u8>,
    ) -> Result<Told, AllocError>
        ensures ok { IfOk result (λ told. TurnsEntry (utp_packet datagram.now) room bytes.new.items told self.old self.new) }
        ensures counted { OnOk result (counted self.new.link ≤ counted self.old.link + room) }
        ensures same { OnErr result (self.new.connection ≡ self.old.connection) }
        ensures err { OnErr result (StaysLink self.old.link [] self.new.link []) }
    {
        bytes.clear();
        let connection = self.connection;
        let is_initiator = datagram.source == connection.initiator;
        let came = came_of(datagram, is_initiator);
        let turned = self.link.turn(&came, room, bytes)?;
        Ok(Told {
            connection,
            is_initiator,
            turned,
        })
    }
}

impl Entries {
    ghost use Rattle.bt_utp.specs.Entries.{entry_at, has_entry, live_in, held_in, room_in, Puts, IsGone, HasTurned, HasStayed, IsSameEntries};

    /// Returns no connections.
    pub fn new(alloc: Global) -> Entries
        ensures none { (a b : Address) (id : ℕ) → entry_at result a b id ≡ None }
        ensures live { live_in result ≡ 0 }
        ensures held { held_in result ≡ 0 }
    {
        Entries {
            map: BTreeMap::new(alloc),
            held: 0,
        }
    }

    /// Returns how many connections there are.
    pub fn len(&self) -> usize
        ensures { result ≡ live_in self.now }
    {
        self.map.len()
    }

    /// Returns how many bytes are held, where each packet counts 64 beside its payload.
    pub fn held(&self) -> usize
        ensures is { result ≡ held_in self.now }
        ensures bound { result ≤ 33554432 }
    {
        self.held
    }

    /// Returns how many bytes more may be held.
    pub fn room(&self) -> usize
        ensures { result ≡ room_in self.now }
    {
        POOL - self.held
    }

    /// Returns a connection by its initiator, its acceptor and the id of its SYN.
    pub fn at(&self, initiator: Address, acceptor: Address, id: u16) -> Option<Connection>
        ensures { result ≡ option_map (λ e. e.connection) (entry_at self.now initiator acceptor id) }
    {
        match self.map.get(&(initiator, acceptor, id)) {
            Some(entry) => Some(entry.connection),
            None => None,
        }
    }

    /// Puts a connection in which nothing is held, in place of the one there.
    ///
    /// # Errors
    /// `AllocError` if out of memory. The connections are as before.
    pub fn put(&mut self, entry: Entry) -> Result<(), AllocError>
        requires { counted entry.link ≡ 0 }
        ensures ok { OnOk result (Puts entry.connection.initiator entry.connection.acceptor entry.connection.id entry self.old self.new) }
        ensures live { OnOk result (live_in self.new
            ≡ (if has_entry self.old entry.connection then live_in self.old else live_in self.old + 1)) }
        ensures err { OnErr result (IsSameEntries self.old self.new) }
    {
        let connection = entry.connection;
        let key = (connection.initiator, connection.acceptor, connection.id);
        if let Some(old) = self.map.insert(key, entry)? {
            self.held -= old.link.counted();
        }
        Ok(())
    }

    /// Turns a packet of a connection into a segment, and writes the segment's payload. Returns `None` if there is no such connection.
    ///
    /// # Errors
    /// `AllocError` if out of memory. The connections are as before.
    pub fn turn(
        &mut self,
        connection: &Connection,
        datagram: &Utp<'_>,
        bytes: &mut Vec<u8>,
    ) -> Result<Option<Told>, AllocError>
        ensures none { IfOk result (λ r. r ≡ None → entry_at self.old connection.now.initiator connection.now.acceptor connection.now.id ≡ None) }
        ensures some { IfOk result (λ r. IfSome r (λ told. HasTurned connection.now (utp_packet datagram.now) bytes.new.items told self.old self.new)) }
        ensures err { OnErr result (HasStayed connection.now self.old self.new) }
    {
        let key = (connection.initiator, connection.acceptor, connection.id);
        let room = self.room();
        let Some(entry) = self.map.get_mut(&key) else {
            return Ok(None);
        };
        let before = entry.link.counted();
        match entry.turn(datagram, room, bytes) {
            Ok(told) => {
                self.held = self.held - before + entry.link.counted();
                Ok(Some(told))
            }
            Err(error) => Err(error),
        }
    }

    /// Lets a connection go.
    pub fn remove(&mut self, connection: &Connection)
        ensures gone { IsGone connection.now.initiator connection.now.acceptor connection.now.id self.old self.new }
        ensures live { live_in self.new + (if has_entry self.old connection.now then 1 else 0) ≡ live_in self.old }
    {
        let key = (connection.initiator, connection.acceptor, connection.id);
        if let Some(old) = self.map.remove(&key) {
            self.held -= old.link.counted();
        }
    }
}
