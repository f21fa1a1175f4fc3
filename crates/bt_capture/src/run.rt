//! What `capture` does: from a source of a capture file to a target of the reports on its connections.
ghost use Rattle.std.specs.Prelude.{◌≡◌, ◌<◌, ℕ, List, [], ◌∷◌, length, Option, None, Ok, OnOk, IfErr, false, true};
ghost use Rattle.std.specs.Map.{lookup};
ghost use Rattle.bt_io.specs.Seen.{SourceSeen, TargetSeen};
ghost use Rattle.bt_packet.specs.Utp.{UtpPacket};
ghost use Rattle.bt_utp.specs.States.{AreCounted};
ghost use Rattle.bt_capture.specs.Arrivals.{turned_segment};
ghost use Rattle.bt_packet.specs.Tcp.{segment};
ghost use Rattle.bt_capture.specs.Ends.{HasEndedSo, IsAllRead, IsMore, IsTurn, IsWhyHeld, ending_by};
ghost use Rattle.bt_capture.specs.Readings.{Reading, Advances, GoesOn, Waits};
ghost use Rattle.bt_capture.specs.Tables.{Held, same_pair};
ghost use Rattle.bt_capture.specs.Sees.{HasEnded, HasGone};
ghost use Rattle.bt_capture.specs.Tellings.{IsEmpty};
ghost use Rattle.bt_capture.specs.Following.{Phase, AtEnd};
ghost use Rattle.bt_capture.specs.Runs.{Adds, Origin, done, origin, IsTelling, IsTellingIn, IsAfter, IsAfterIn, IsTold, IsEndOf};
ghost use Rattle.bt_capture.specs.Runs.{utp_lines, utp_text};
ghost use Rattle.bt_capture.specs.declared.run.Run.{Run};
ghost use Rattle.bt_capture.specs.declared.pair.Pair.{Pair};

use crate::connection::Connection;
use crate::connections::{Connections, Over};
use crate::ending::{CaptureEnd, CaptureJob, Ending, Form, Stop};
use crate::fault::ReadFault;
use crate::packets::{FileEnd, Packets};
use crate::sight::{Sight, sight_of};
use crate::unread::UnreadPackets;
use crate::utp::flow_lines;
use bt_io::{Source, Target};
use bt_jobs::output::write_out;
use bt_packet::{Flags, Segment, Utp};
use bt_pcap::Packet;
use bt_talk::{Terms, When};
use bt_text::ended::ToolFault;
use bt_utp::{Links, Told, UtpFlows};
use std::alloc::{AllocError, Global};
use std::hash::RandomState;

/// A capture that is read: its connections, and the packets that aren't TCP.
#[derive(Drop)]
pub(crate) struct Run {
    alloc: Global,
    /// The time of the first packet.
    start: Option<u64>,
    /// The packets of uTP, which are counted.
    utp: UtpFlows,
    /// The connections of uTP.
    links: Links,
    skipped: u64,
    unread: UnreadPackets,
    connections: Connections,
}

/// Returns the segment that a packet of uTP was turned into. If a byte is missing it has one more than its payload.
fn segment_of<'a>(told: &Told, payload: &'a [u8]) -> Segment<'a>
    ensures { segment result ≡ turned_segment told.now.connection told.now.is_initiator told.now.turned payload.now }
{
    let Told {
        connection,
        is_initiator,
        turned,
    } = *told;
    let (source, target) = if is_initiator {
        (connection.initiator, connection.acceptor)
    } else {
        (connection.acceptor, connection.initiator)
    };
    Segment {
        source,
        target,
        sequence: turned.sequence,
        acked: turned.acked,
        flags: Flags {
            fin: turned.is_fin,
            syn: turned.is_syn,
            rst: turned.is_reset,
            ack: turned.acked.is_some(),
        },
        payload,
        length: payload.len() as u64 + u64::from(turned.is_missing),
    }
}

impl Run {
    ghost use Rattle.std.specs.Prelude.{◌++◌, ◌+◌, ◌-◌, ◌^◌, ◌≤◌, min, IfOk};
    ghost use Rattle.std.specs.List.{All};
    ghost use Rattle.bt_io.specs.Counts.{counted as counted_if, one_more};
    ghost use Rattle.bt_pcap.specs.Formats.{Captured};
    ghost use Rattle.bt_pcap.specs.Steps.{captured};
    ghost use Rattle.bt_capture.specs.Arrivals.{AreEarlier, Arrival, Clock, clock_of, count_skipped, first_time, is_no_segment, with_packet};
    ghost use Rattle.bt_capture.specs.Bounds.{IsBounded};
    ghost use Rattle.bt_capture.specs.FlowTexts.{datagrams, datagrams_in};
    ghost use Rattle.bt_capture.specs.Following.{Follows, Goes, Since, asked_of, since};
    ghost use Rattle.bt_capture.specs.Runs.{ComeTo, TakesPackets, TakesSeen, since_first};
    ghost use Rattle.bt_capture.specs.Sights.{SawUtp, seen};
    ghost use Rattle.bt_capture.specs.Unread.{unread_packets, why_in, whys};
    ghost use Rattle.bt_packet.specs.Utp.{utp_packet};
    ghost use Rattle.bt_packet.specs.declared.unread.Unread.{Unread};
    ghost use Rattle.bt_utp.specs.Channels.{Table, no_connections};
    ghost use Rattle.bt_utp.specs.Taken.{Taken};
    ghost use Rattle.bt_utp.specs.Turnings.{AreLinked};

    /// Starts before a capture's first packet. `keys` are those of the table of connections.
    ///
    /// # Errors
    /// `AllocError` when out of memory.
    fn new(alloc: Global, keys: RandomState, terms: Terms, form: Form) -> Result<Run, AllocError>
        ensures follows { IfOk result (λ run. (start : Since) → Follows start start.target (clock_of []) [] run.connections.table run.connections) }
        ensures asked { IfOk result (λ run. asked_of run.connections ≡ record { terms = terms; form = form }) }
        ensures start { IfOk result (λ run. run.start ≡ None) }
        ensures utp { IfOk result (λ run. AreCounted [] run.utp) }
        ensures links { IfOk result (λ run. AreLinked no_connections [] run.links) }
        ensures skipped { IfOk result (λ run. run.skipped ≡ 0) }
        ensures unread { IfOk result (λ run. run.unread ≡ unread_packets []) }
        ensures bounded { IfOk result (λ run. IsBounded run.connections) }
    {
        Ok(Run {
            alloc,
            start: None,
            utp: UtpFlows::new(alloc),
            links: Links::new(alloc),
            skipped: 0,
            unread: UnreadPackets::new(),
            connections: Connections::new(alloc, keys, terms, form)?,
        })
    }

    /// Counts a packet that isn't TCP.
    fn skip(&mut self)
        ensures { self.new ≡ record self.old { skipped = one_more self.old.skipped } }
    {
        self.skipped = self.skipped.saturating_add(1);
    }

    /// Takes the segment that a packet of uTP was turned into.
    fn take_turned(&mut self, told: &Told, when: When, from: u64) -> Result<(), AllocError>
        ensures goes { (start now : TargetSeen) (clock : Clock) (came : List Arrival) → AreEarlier clock when.packet → when.packet ≡ clock.number
            → All (λ x. x.when.packet ≤ when.packet) came → Follows (since start from) now clock came self.old.connections.table self.old.connections
            → let s = turned_segment told.now.connection told.now.is_initiator told.now.turned self.old.links.bytes.items in
            Goes (since start from) now (with_packet when clock) (came ++ record { segment = s; when = when; link = Some told.now.connection.number } ∷ [])
            self.new.connections.table self.new.connections result }
        ensures bounded { OnOk result (IsBounded self.old.connections → IsBounded self.new.connections) }
        ensures asked { asked_of self.new.connections ≡ asked_of self.old.connections }
        ensures rest { self.new ≡ record self.old { connections = self.new.connections } }
    {
        let segment = segment_of(told, self.links.bytes());
        self.connections
            .take_segment(&segment, Some(told.connection.number), when, from)
    }

    /// Takes a packet of uTP: counts it and, if it is of a connection whose SYN came, takes the segment that it is turned into.
    fn take_utp(&mut self, datagram: &Utp<'_>, when: When, from: u64) -> Result<(), AllocError>
        ensures goes { (start now : TargetSeen) (clock : Clock) (t : Table) (xs : List Taken) (came : List Arrival) → AreEarlier clock when.packet
            → when.packet ≡ clock.number → All (λ x. x.when.packet ≤ when.packet) came → AreLinked t xs self.old.links
            → Follows (since start from) now clock came self.old.connections.table self.old.connections
            → TakesSeen (since start from) now (with_packet when clock) t xs came (SawUtp (utp_packet datagram.now)) when self.new result }
        ensures bounded { OnOk result (IsBounded self.old.connections → IsBounded self.new.connections) }
        ensures asked { asked_of self.new.connections ≡ asked_of self.old.connections }
        ensures start { self.new.start ≡ self.old.start }
        ensures utp { OnOk result ((ds : List UtpPacket) → AreCounted ds self.old.utp → AreCounted (ds ++ utp_packet datagram.now ∷ []) self.new.utp) }
        ensures skipped { self.new.skipped ≡ one_more self.old.skipped }
        ensures unread { self.new.unread ≡ self.old.unread }
    {
        self.skip();
        self.utp.take(datagram)?;
        let turned = self.links.take(datagram)?;
        match turned {
            Some(told) => self.take_turned(&told, when, from),
            None => Ok(()),
        }
    }

    /// Takes what a packet carries.
    fn take_sight(&mut self, sight: &Sight, when: When, from: u64) -> Result<(), AllocError>
        ensures goes { (start now : TargetSeen) (clock : Clock) (t : Table) (xs : List Taken) (came : List Arrival) → AreEarlier clock when.packet
            → when.packet ≡ clock.number → All (λ x. x.when.packet ≤ when.packet) came → AreLinked t xs self.old.links
            → Follows (since start from) now clock came self.old.connections.table self.old.connections
            → TakesSeen (since start from) now (with_packet when clock) t xs came (seen sight.now) when self.new result }
        ensures bounded { OnOk result (IsBounded self.old.connections → IsBounded self.new.connections) }
        ensures asked { asked_of self.new.connections ≡ asked_of self.old.connections }
        ensures start { self.new.start ≡ self.old.start }
        ensures utp { OnOk result ((ds : List UtpPacket) → AreCounted ds self.old.utp → AreCounted (ds ++ datagrams_in (seen sight.now)) self.new.utp) }
        ensures skipped { self.new.skipped ≡ counted_if (is_no_segment (seen sight.now)) self.old.skipped }
        ensures unread { (whys : List Unread) → self.old.unread ≡ unread_packets whys → self.new.unread ≡ unread_packets (whys ++ why_in (seen sight.now)) }
    {
        match sight {
            Sight::Segment(segment) => self.connections.take_segment(segment, None, when, from),
            Sight::Utp(datagram) => self.take_utp(datagram, when, from),
            Sight::Other(why) => {
                self.skip();
                self.unread.count(*why);
                Ok(())
            }
        }
    }

    /// Takes the next packet; `number` is its number in the capture, counted from 1.
    ///
    /// # Errors
    /// `AllocError` when out of memory.
    fn take(&mut self, packet: &Packet, number: u64) -> Result<(), AllocError>
        ensures goes { (start now : TargetSeen) (packets : List Captured) (came : List Arrival) → number ≡ min (length packets + 1) (2 ^ 64 - 1)
            → self.old.start ≡ first_time packets → ComeTo packets came self.old.links
            → Follows (since_first start packets) now (clock_of packets) came self.old.connections.table self.old.connections
            → TakesPackets start now (packets ++ captured packet.now ∷ []) self.new result }
        ensures bounded { OnOk result (IsBounded self.old.connections → IsBounded self.new.connections) }
        ensures asked { asked_of self.new.connections ≡ asked_of self.old.connections }
        ensures start { (packets : List Captured) → self.old.start ≡ first_time packets → self.new.start ≡ first_time (packets ++ captured packet.now ∷ []) }
        ensures utp { OnOk result ((packets : List Captured) → AreCounted (datagrams packets) self.old.utp
            → AreCounted (datagrams (packets ++ captured packet.now ∷ [])) self.new.utp) }
        ensures skipped { (packets : List Captured) → self.old.skipped ≡ count_skipped packets
            → self.new.skipped ≡ count_skipped (packets ++ captured packet.now ∷ []) }
        ensures unread { (packets : List Captured) → self.old.unread ≡ unread_packets (whys packets)
            → self.new.unread ≡ unread_packets (whys (packets ++ captured packet.now ∷ [])) }
    {
        let from = self.start.unwrap_or(packet.nanos);
        self.start = Some(from);
        let when = When {
            nanos: packet.nanos,
            packet: number,
        };
        self.take_sight(&sight_of(packet), when, from)?;
        self.connections.end_quiet(when, from)
    }

    /// Returns the lines on packets of uTP. There are none if only a stream is told.
    ///
    /// # Errors
    /// `AllocError` when out of memory.
    fn utp_lines(&self) -> Result<Vec<u8>, AllocError>
        ensures { IfOk result (λ text. (ds : List UtpPacket) → AreCounted ds self.now.utp → text.items ≡ utp_text self.now.connections.teller.form ds) }
    {
        let form = self.connections.teller.form;
        if form.stream.is_some() {
            return Ok(Vec::new(self.alloc));
        }
        flow_lines(self.alloc, &self.utp, form.json)
    }
}

/// Writes the text that is kept.
fn write<W: Target>(run: &mut Run, writer: &mut W) -> Result<(), ToolFault>
    ensures after { (ph : Phase) (o : Origin) (left : Option (List ℕ)) (es : List (Pair × Held)) (r : Reading)
        → IsTellingIn ph o left (W.seen writer.old) es run.old r → IsAfterIn ph o left (W.seen writer.new) es run.new r result }
    ensures table { run.new.connections.table ≡ run.old.connections.table }
    ensures empty { OnOk result (IsEmpty run.new.connections.teller) }
{
    match run.connections.teller.flush(writer) {
        Ok(()) => Ok(()),
        Err(_) => Err(ToolFault::Write),
    }
}

/// Writes the text that is kept if it is long.
fn write_if_full<W: Target>(run: &mut Run, writer: &mut W) -> Result<(), ToolFault>
    ensures after { (ph : Phase) (o : Origin) (left : Option (List ℕ)) (es : List (Pair × Held)) (r : Reading)
        → IsTellingIn ph o left (W.seen writer.old) es run.old r → IsAfterIn ph o left (W.seen writer.new) es run.new r result }
    ensures table { run.new.connections.table ≡ run.old.connections.table }
{
    if run.connections.teller.is_full() {
        write(run, writer)
    } else {
        Ok(())
    }
}

/// Takes the next packet of what was read, and tells whether there was one.
fn step(run: &mut Run, packets: &mut Packets) -> Result<bool, Stop>
    ensures after { (o : Origin) (left : Option (List ℕ)) (now : TargetSeen) → IsTelling o left now run.old.connections.table run.old packets.old
        → IsAfter o left now run.new.connections.table run.new packets.new result }
    ensures advances { result ≡ Ok true → Advances packets.old packets.new }
    ensures stays { result ≡ Ok false → GoesOn packets.old [] [] packets.new }
    ensures waits { result ≡ Ok false → Waits packets.new }
    ensures why { IfErr result (λ s. IsWhyHeld s packets.new) }
{
    let number = packets.packets().saturating_add(1);
    match packets.take() {
        Ok(Some(packet)) => match run.take(&packet, number) {
            Ok(()) => Ok(true),
            Err(_) => Err(Stop::Fault(ToolFault::Memory)),
        },
        Ok(None) => Ok(false),
        Err(fault) => Err(Stop::File(fault)),
    }
}

/// Reads more of the file, once all text is written. It tells whether a byte came.
fn read_more<R: Source, W: Target>(
    run: &mut Run,
    packets: &mut Packets,
    reader: &mut R,
    writer: &mut W,
) -> Result<bool, Stop>
    requires { length packets.old.held < 1048604 }
    ensures after { (o : Origin) → IsTelling o (R.seen reader.old).left (W.seen writer.old) run.old.connections.table run.old packets.old
        → IsAfter o (R.seen reader.new).left (W.seen writer.new) run.new.connections.table run.new packets.new result }
    ensures advances { result ≡ Ok true → Advances packets.old packets.new }
    ensures more { Waits packets.old → IsMore result packets.new (R.seen reader.old) (R.seen reader.new) }
{
    match write(run, writer) {
        Ok(()) => {}
        Err(fault) => return Err(Stop::Fault(fault)),
    }
    match packets.read(reader) {
        Ok(0) => Ok(false),
        Ok(_) => Ok(true),
        Err(ReadFault::Failed) => Err(Stop::Read),
        Err(ReadFault::Memory) => Err(Stop::Fault(ToolFault::Memory)),
    }
}

/// Tells how the file ended, which was read to its end.
fn ended(packets: &Packets) -> Result<FileEnd, Stop>
    ensures after { (o : Origin) (left : Option (List ℕ)) (now : TargetSeen) (es : List (Pair × Held)) (run : Run) → IsTelling o left now es run packets.now
        → IsAfter o left now es run packets.now result }
    ensures ended { (before seen : SourceSeen) → Waits packets.now → HasEnded before seen → IsAllRead result packets.now before seen }
{
    match packets.ended() {
        Ok(end) => Ok(end),
        Err(fault) => Err(Stop::File(fault)),
    }
}

/// Takes a packet, or reads more if there is none. At the end of the file it tells how that ended.
fn turn<R: Source, W: Target>(
    run: &mut Run,
    packets: &mut Packets,
    reader: &mut R,
    writer: &mut W,
) -> Result<Option<FileEnd>, Stop>
    ensures after { (o : Origin) → IsTelling o (R.seen reader.old).left (W.seen writer.old) run.old.connections.table run.old packets.old
        → IsAfter o (R.seen reader.new).left (W.seen writer.new) run.new.connections.table run.new packets.new result }
    ensures advances { result ≡ Ok None → Advances packets.old packets.new }
    ensures turn { IsTurn result packets.new (R.seen reader.old) (R.seen reader.new) }
{
    if step(run, packets)? {
        return match write_if_full(run, writer) {
            Ok(()) => Ok(None),
            Err(fault) => Err(Stop::Fault(fault)),
        };
    }
    if read_more(run, packets, reader, writer)? {
        return Ok(None);
    }
    let end = ended(packets)?;
    Ok(Some(end))
}

/// Takes all packets of the file.
fn read_all<R: Source, W: Target>(
    run: &mut Run,
    packets: &mut Packets,
    reader: &mut R,
    writer: &mut W,
) -> Result<FileEnd, Stop>
    ensures after { (o : Origin) → IsTelling o (R.seen reader.old).left (W.seen writer.old) run.old.connections.table run.old packets.old
        → IsAfter o (R.seen reader.new).left (W.seen writer.new) run.new.connections.table run.new packets.new result }
    ensures all { IsAllRead result packets.new (R.seen reader.old) (R.seen reader.new) }
{
    for _turn in 0..u64::MAX {
        if let Some(end) = turn(run, packets, reader, writer)? {
            return Ok(end);
        }
    }
    Err(Stop::Fault(ToolFault::Turns))
}

/// Tells of a connection that is left at the end.
fn tell_last<W: Target>(
    run: &mut Run,
    connection: Box<Connection>,
    writer: &mut W,
) -> Result<(), ToolFault>
    ensures after { (o : Origin) (left : Option (List ℕ)) (p : Pair) (es : List (Pair × Held)) (r : Reading) → lookup (same_pair p) es ≡ None
        → IsTellingIn AtEnd o left (W.seen writer.old) ((p, connection) ∷ es) run.old r → IsAfterIn AtEnd o left (W.seen writer.new) es run.new r result }
{
    let from = run.start.unwrap_or(0);
    match run.connections.report(connection, Over::Open, from) {
        Ok(()) => write_if_full(run, writer),
        Err(_) => Err(ToolFault::Memory),
    }
}

/// Tells of the connections that are left, and writes all text.
fn finish<W: Target>(run: &mut Run, writer: &mut W) -> Result<(), ToolFault>
    ensures after { (o : Origin) (left : Option (List ℕ)) (r : Reading) → IsTelling o left (W.seen writer.old) run.old.connections.table run.old r
        → IsAfterIn AtEnd o left (W.seen writer.new) [] run.new r result }
    ensures empty { OnOk result (IsEmpty run.new.connections.teller) }
{
    let Ok(rest) = run.connections.rest() else {
        return Err(ToolFault::Memory);
    };
    for (_, connection) in rest {
        tell_last(run, connection, writer)?;
    }
    write(run, writer)
}

/// Writes the lines on packets of uTP, after all reports. There are none if only a stream is told.
fn write_utp<W: Target>(run: &Run, writer: &mut W) -> Result<(), ToolFault>
    ensures added { (ds : List UtpPacket) → AreCounted ds run.now.utp
        → Adds (utp_text run.now.connections.teller.form ds) (W.seen writer.old) (W.seen writer.new) result }
{
    let Ok(lines) = run.utp_lines() else {
        return Err(ToolFault::Memory);
    };
    let Ok(()) = write_out(writer, lines.as_slice(), ()) else {
        return Err(ToolFault::Write);
    };
    Ok(())
}

/// Returns how reading ended, if the file was read to its end.
fn ending_of(end: FileEnd) -> Ending
    ensures { result ≡ ending_by end }
{
    match end {
        FileEnd::Whole => Ending::Whole,
        FileEnd::Cut => Ending::Cut,
    }
}

/// Returns what the capture had, once all is told.
fn end_of(run: &Run, packets: &Packets, ending: Ending) -> CaptureEnd
    ensures { (o : Origin) (seen : SourceSeen) (before now : TargetSeen) (i : IsTellingIn AtEnd o seen.left before [] run.now packets.now)
        → IsEmpty run.now.connections.teller → HasEndedSo ending packets.now o.source seen → Adds (utp_lines run.now.connections.teller.form i.packets) before now done
        → IsEndOf o seen now result }
{
    CaptureEnd {
        packets: packets.packets(),
        skipped: run.skipped,
        unread_packets: run.unread,
        torrents: run.connections.teller.torrents(),
        lost: run.connections.lost.memory,
        is_refused: run.connections.teller.is_refused(),
        is_partial: run.connections.teller.is_partial(),
        ending,
        absent: run.connections.absent(),
        unread: run.connections.lost.crowd,
        early: run.connections.lost.early,
    }
}

/// Tells of the connections that are left and of uTP, once reading ended, and returns what the capture had.
fn end_read<W: Target>(
    run: &mut Run,
    packets: &Packets,
    ending: Ending,
    writer: &mut W,
) -> Result<CaptureEnd, ToolFault>
    ensures { (o : Origin) (seen : SourceSeen) → IsTelling o seen.left (W.seen writer.old) run.old.connections.table run.old packets.now
        → HasEndedSo ending packets.now o.source seen → IsTold o seen (W.seen writer.new) result }
{
    finish(run, writer)?;
    write_utp(run, writer)?;
    Ok(end_of(run, packets, ending))
}

/// Takes all packets of the file, and tells of their connections.
fn tell_all<R: Source, W: Target>(
    run: &mut Run,
    packets: &mut Packets,
    reader: &mut R,
    writer: &mut W,
) -> Result<CaptureEnd, ToolFault>
    ensures { (o : Origin) → IsTelling o (R.seen reader.old).left (W.seen writer.old) run.old.connections.table run.old packets.old
        → HasGone o.source (R.seen reader.old) → IsTold o (R.seen reader.new) (W.seen writer.new) result }
{
    match read_all(run, packets, reader, writer) {
        Ok(end) => end_read(run, packets, ending_of(end), writer),
        Err(Stop::File(fault)) => end_read(run, packets, Ending::Broken(fault), writer),
        Err(Stop::Read) => end_read(run, packets, Ending::Failed, writer),
        Err(Stop::Fault(fault)) => Err(fault),
    }
}

/// Writes a report on each connection of TCP or uTP of a capture file of which a byte was captured, and returns what the capture had.
///
/// A connection of uTP is read if its SYN was captured. A packet of it that isn't in the capture counts as one missing byte.
///
/// A connection is reported when it is over; the others at the end, in the order of their numbers. If rows are shown, those of a
/// packet come at once, after the connection's opening, and all of a connection before its report. After all reports there is a line
/// on each two ends with packets of uTP, in the order of the first ones. What was told is written before more is read. If a read
/// fails or the file is broken, all that was read up to there is reported, and the end says so.
///
/// If a stream is asked for, only its bytes are written: those of the side from its handshake on, or from its first byte if none
/// began in the opening, up to the first gap. They come at the end of the connection's opening, and after it with each packet.
/// Reports are made all the same, for what the capture had.
///
/// `keys` are those of the table of connections.
///
/// # Errors
/// `Write` if a write failed or took no byte, `Memory` when out of memory, `Turns` after 2^64 - 1 packets and reads.
pub fn run_capture<R: Source, W: Target>(
    alloc: Global,
    keys: RandomState,
    reader: &mut R,
    writer: &mut W,
    job: &CaptureJob,
) -> Result<CaptureEnd, ToolFault>
    ensures { IsTold (origin job.now (R.seen reader.old) (W.seen writer.old)) (R.seen reader.new) (W.seen writer.new) result }
{
    let form = Form {
        show: job.show,
        json: job.json,
        stream: job.stream,
        choice: job.choice,
    };
    match Run::new(alloc, keys, job.terms, form) {
        Ok(mut run) => match Packets::new(alloc) {
            Ok(mut packets) => tell_all(&mut run, &mut packets, reader, writer),
            Err(_) => Err(ToolFault::Memory),
        },
        Err(_) => Err(ToolFault::Memory),
    }
}
