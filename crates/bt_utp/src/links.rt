//! The connections of uTP, by their channels.
ghost use Rattle.std.specs.Prelude.{◌≡◌, ◌≤◌, ◌-◌, List, [], Some, true, false, OnErr, IfOk};
ghost use Rattle.bt_packet.specs.Utp.{utp_packet};
ghost use Rattle.bt_utp.specs.Channels.{Table, no_connections, channel_of, found, begins, syn_again, has_place, after_forget, is_live};
ghost use Rattle.bt_utp.specs.Entries.{held_in, room_in};
ghost use Rattle.bt_utp.specs.Taken.{Taken};
ghost use Rattle.bt_utp.specs.Turnings.{view, AreLinked, IsTold, IsToldOr};

use crate::connection::{Connection, Told, later};
use crate::entries::{Entries, Entry};
use bt_order::Link;
use bt_packet::{Address, Utp, UtpKind};
use std::alloc::{AllocError, Global};

/// How many connections there are at most.
const CONNECTIONS: usize = 65536;

/// The connections whose SYN came.
#[derive(Drop)]
pub struct Links {
    alloc: Global,
    entries: Entries,
    /// How many connections began.
    begun: u64,
    /// The payload of the last segment.
    bytes: Vec<u8>,
}

impl Links {
    /// Returns no connections.
    pub fn new(alloc: Global) -> Links
        ensures none { AreLinked no_connections [] result }
        ensures held { held_in result.entries ≡ 0 }
    {
        Links {
            alloc,
            entries: Entries::new(alloc),
            begun: 0,
            bytes: Vec::new(alloc),
        }
    }

    /// Returns the connection that a SYN with these ends and this id began.
    fn at(&self, initiator: Address, acceptor: Address, id: u16) -> Option<Connection>
        ensures { result ≡ (view self.now).at initiator acceptor id }
    {
        self.entries.at(initiator, acceptor, id)
    }

    /// Returns the connection of a channel.
    fn of_channel(&self, source: Address, target: Address, id: u16) -> Option<Connection>
        ensures { result ≡ channel_of (view self.now) source target id }
    {
        let sent = self.at(source, target, id.wrapping_sub(1));
        later(sent, self.at(target, source, id))
    }

    /// Returns the connection that a SYN began which is sent again.
    fn syn_again(&self, datagram: &Utp<'_>) -> Option<Connection>
        ensures { result ≡ syn_again (view self.now) (utp_packet datagram.now) }
    {
        let connection = self.at(datagram.source, datagram.target, datagram.id)?;
        if connection.syn == datagram.number {
            Some(connection)
        } else {
            None
        }
    }

    /// Returns the connection of a packet that begins none.
    fn find(&self, datagram: &Utp<'_>) -> Option<Connection>
        ensures { result ≡ found (view self.now) (utp_packet datagram.now) }
    {
        let (source, target, id) = (datagram.source, datagram.target, datagram.id);
        match datagram.kind {
            UtpKind::Syn => self.syn_again(datagram),
            UtpKind::Reset => {
                let own = self.of_channel(source, target, id);
                let other = self.of_channel(target, source, id);
                own.or(other)
            }
            _ => self.of_channel(source, target, id),
        }
    }

    /// Tells whether a connection is there.
    fn is_live(&self, connection: &Connection) -> bool
        ensures { result ≡ is_live (view self.now) connection.now }
    {
        match self.at(connection.initiator, connection.acceptor, connection.id) {
            Some(there) => there.number == connection.number,
            None => false,
        }
    }

    /// Tells whether there is room for a connection that a SYN begins.
    fn has_place(&self, datagram: &Utp<'_>) -> bool
        ensures { result ≡ has_place (view self.now) (utp_packet datagram.now) }
    {
        let (source, target, id) = (datagram.source, datagram.target, datagram.id);
        self.begun < u64::MAX
            && (self.at(source, target, id).is_some() || self.entries.len() < CONNECTIONS)
    }

    /// Tells whether a packet begins a connection.
    fn is_first(&self, datagram: &Utp<'_>) -> bool
        ensures { result ≡ begins (view self.now) (utp_packet datagram.now) }
    {
        matches!(datagram.kind, UtpKind::Syn)
            && datagram.source != datagram.target
            && self.syn_again(datagram).is_none()
            && self.has_place(datagram)
    }

    /// Begins a connection with its SYN.
    fn begin(&mut self, datagram: &Utp<'_>) -> Result<Told, AllocError>
        requires { begins (view self.old) (utp_packet datagram.now) ≡ true }
        ensures ok { IfOk result (λ told. (t : Table) (xs : List Taken) → AreLinked t xs self.old
            → IsTold t xs (utp_packet datagram.now) (room_in self.old.entries) told self.new) }
        ensures err { OnErr result ((t : Table) (xs : List Taken) → AreLinked t xs self.old → AreLinked t xs self.new) }
    {
        let connection = Connection {
            number: self.begun,
            initiator: datagram.source,
            acceptor: datagram.target,
            id: datagram.id,
            syn: datagram.number,
        };
        let mut entry = Entry {
            connection,
            link: Link::new(self.alloc, datagram.number),
        };
        let room = self.entries.room();
        let told = entry.turn(datagram, room, &mut self.bytes)?;
        self.entries.put(entry)?;
        self.begun += 1;
        Ok(told)
    }

    /// Turns a packet of a connection that is there.
    fn go_on(
        &mut self,
        connection: &Connection,
        datagram: &Utp<'_>,
    ) -> Result<Option<Told>, AllocError>
        requires none { begins (view self.old) (utp_packet datagram.now) ≡ false }
        requires found { found (view self.old) (utp_packet datagram.now) ≡ Some connection.now }
        ensures ok { IfOk result (λ told. (t : Table) (xs : List Taken) → AreLinked t xs self.old
            → IsToldOr t xs (utp_packet datagram.now) (room_in self.old.entries) told self.new) }
        ensures err { OnErr result ((t : Table) (xs : List Taken) → AreLinked t xs self.old → AreLinked t xs self.new) }
    {
        let told = self.entries.turn(connection, datagram, &mut self.bytes)?;
        Ok(told)
    }

    /// Takes a packet. Returns its connection and the segment that it is turned into, or `None` if it is of no connection.
    ///
    /// The early packets that are held take 1 MiB at most in a direction, and 32 MiB of all connections, where each counts 64 bytes
    /// beside its payload.
    ///
    /// # Errors
    /// `AllocError` if out of memory. The connections are as before.
    pub fn take(&mut self, datagram: &Utp<'_>) -> Result<Option<Told>, AllocError>
        ensures ok { IfOk result (λ told. (t : Table) (xs : List Taken) → AreLinked t xs self.old
            → IsToldOr t xs (utp_packet datagram.now) (room_in self.old.entries) told self.new) }
        ensures err { OnErr result ((t : Table) (xs : List Taken) → AreLinked t xs self.old → AreLinked t xs self.new) }
    {
        if self.is_first(datagram) {
            let told = self.begin(datagram)?;
            return Ok(Some(told));
        }
        match self.find(datagram) {
            Some(connection) => self.go_on(&connection, datagram),
            None => Ok(None),
        }
    }

    /// Forgets a connection, if it is there, and what is held of it. Later packets with its channels are of no connection.
    pub fn forget(&mut self, connection: &Connection)
        ensures { (t : Table) (xs : List Taken) → AreLinked t xs self.old → AreLinked (after_forget t connection.now) xs self.new }
    {
        if self.is_live(connection) {
            self.entries.remove(connection);
        }
    }

    /// Returns the payload of the segment that `take` returned last.
    pub fn bytes(&self) -> &[u8]
        ensures { result.now ≡ self.now.bytes.items }
    {
        self.bytes.as_slice()
    }

    /// Returns how many connections there are. They are 65,536 at most.
    pub fn len(&self) -> usize
        ensures { (t : Table) (xs : List Taken) → AreLinked t xs self.now → result ≡ t.live }
    {
        self.entries.len()
    }

    /// Returns how many bytes are held, of all connections, where each packet counts 64 beside its payload. It is at most 32 MiB.
    pub fn counted(&self) -> usize
        ensures is { result ≡ held_in self.now.entries }
        ensures bound { result ≤ 33554432 }
    {
        self.entries.held()
    }
}
