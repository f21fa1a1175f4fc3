//! The text of reports and rows, or their JSON objects, or a stream's bytes, which are written in large pieces.
ghost use Rattle.std.specs.Prelude.{◌≡◌, ◌⊎◌, ◌∷◌, ◌++◌, [], ℕ, List, OnOk, OnErr, string_bytes, true};
ghost use Rattle.bt_io.specs.Counts.{counted as counted_by};
ghost use Rattle.bt_io.specs.Seen.{TargetSeen, WriteFailed};
ghost use Rattle.bt_report.specs.declared.report.Report.{Report};
ghost use Rattle.bt_capture.specs.Forms.{handed, is_stream, showing_by, wanted_by};
ghost use Rattle.bt_capture.specs.Shown.{HasRows};
ghost use Rattle.bt_talk.specs.Rooms.{heading_by, rows_in};
ghost use Rattle.bt_capture.specs.Tellings.{is_told_with, report_by, text_by};

use crate::choice::{is_chosen, is_refused};
use crate::ending::Form;
use crate::reporting::body_of;
use bt_io::{Target, WriteFault};
use bt_jobs::output::write_out;
use bt_remarks::Side;
use bt_report::{Finding, Left, Report, ReportObject};
use bt_talk::{Room, Showing, Talk};
use std::alloc::{AllocError, Global};

/// How many bytes of text are kept before they are written.
const ROOM: usize = 65_536;

/// Tells whether a report with this finding is on a BitTorrent connection.
fn is_told(finding: Finding) -> bool
    ensures { result ≡ is_told_with finding }
{
    match finding {
        Finding::NotBitTorrent => false,
        Finding::Accepted => true,
        Finding::Refused => true,
    }
}

/// Returns a count, one more after a report on a BitTorrent connection.
fn counted(torrents: u64, finding: Finding) -> u64
    ensures { result ≡ counted_by (is_told_with finding) torrents }
{
    if is_told(finding) {
        torrents.saturating_add(1)
    } else {
        torrents
    }
}

/// Appends a report as text or, with `json`, as a JSON object.
fn put_by(json: bool, report: &Report, line: &mut String) -> Result<(), AllocError>
    ensures { OnOk result (string_bytes line.new ≡ string_bytes line.old ++ text_by json report.now) }
{
    if json {
        let object = ReportObject(report);
        write!(line, "{object}")
    } else {
        write!(line, "{report}")
    }
}

/// Appends a report as it is told in this form. It has no text if it isn't chosen, or if only a stream is told.
fn put_in(form: Form, report: &Report, line: &mut String) -> Result<(), AllocError>
    ensures { OnOk result (string_bytes line.new ≡ string_bytes line.old ++ report_by form report.now) }
{
    if form.stream.is_some() {
        return Ok(());
    }
    if !is_chosen(form.choice, report) {
        return Ok(());
    }
    put_by(form.json, report, line)
}

/// Tells reports, and rows between them, or a stream: the text is kept, and written in large pieces.
#[derive(Drop)]
pub struct Teller {
    text: Vec<u8>,
    /// The report that is told last: an error while it is written leaves the text as before.
    line: String,
    pub(crate) form: Form,
    /// How many reports are on BitTorrent connections, those that aren't chosen too.
    torrents: u64,
    /// Whether a direction of a chosen report is refused.
    is_refused: bool,
    /// Whether a chosen report is on a connection of which only a part was read.
    is_partial: bool,
}

impl Teller {
    ghost use Rattle.bt_capture.specs.Tellings.{Tells, TellsOn, Says, SaysAfter, IsStopped, chosen_by, count_torrents, is_one_partial, is_one_refused, IsEmpty};

    /// Starts with no report.
    pub fn new(alloc: Global, form: Form) -> Teller
        ensures tells { (start : TargetSeen) → Tells start start result [] [] }
        ensures empty { IsEmpty result }
        ensures form { result.form ≡ form }
    {
        Teller {
            text: Vec::new(alloc),
            line: String::new(alloc),
            form,
            torrents: 0,
            is_refused: false,
            is_partial: false,
        }
    }

    /// Tells one more report.
    ///
    /// # Errors
    /// `AllocError` when out of memory. The report isn't told then.
    pub fn tell(&mut self, report: &Report) -> Result<(), AllocError>
        ensures told { OnOk result ((start now : TargetSeen) (reports : List Report) (written : List ℕ) → Tells start now self.old reports written
            → Tells start now self.new (reports ++ report.now ∷ []) written) }
        ensures same { OnErr result (TellsOn self.old self.new) }
        ensures text { OnOk result (self.new.text.items ≡ self.old.text.items ++ report_by self.old.form report.now) }
        ensures kept { OnErr result (self.new.text.items ≡ self.old.text.items) }
        ensures form { self.new.form ≡ self.old.form }
    {
        self.line.clear();
        put_in(self.form, report, &mut self.line)?;
        self.text.extend_from_slice(self.line.as_bytes())?;
        let finding = report.finding();
        self.torrents = counted(self.torrents, finding);
        let chosen = is_chosen(self.form.choice, report);
        self.is_refused |= chosen & is_refused(finding);
        self.is_partial |= chosen & report.is_partial();
        Ok(())
    }

    /// Returns how rows are shown.
    pub fn showing(&self) -> Showing
        ensures { result ≡ showing_by self.now.form }
    {
        self.form.showing()
    }

    /// Returns the side whose stream is told, if it is one of the connection with this number.
    pub fn wanted(&self, number: u64) -> Option<Side>
        ensures { result ≡ wanted_by self.now.form number }
    {
        self.form.wanted(number)
    }

    /// Tells the rows that a room has.
    fn show_rows(&mut self, room: &Room) -> Result<(), AllocError>
        ensures told { HasRows (showing_by self.old.form) room.now → TellsOn self.old self.new }
        ensures text { OnOk result (self.new.text.items ≡ self.old.text.items ++ (rows_in room.now).text.items) }
        ensures kept { OnErr result (self.new.text.items ≡ self.old.text.items) }
        ensures form { self.new.form ≡ self.old.form }
    {
        self.text.extend_from_slice(room.rows())?;
        Ok(())
    }

    /// Tells the bytes that a room has, if they are of the stream that is told. It is turned to the connection with this number.
    fn hand_out(&mut self, number: u64, room: &Room) -> Result<(), AllocError>
        ensures told { TellsOn self.old self.new }
        ensures text { OnOk result (self.new.text.items ≡ self.old.text.items ++ handed self.old.form number room.now) }
        ensures kept { OnErr result (self.new.text.items ≡ self.old.text.items) }
        ensures form { self.new.form ≡ self.old.form }
    {
        if self.form.wanted(number).is_none() {
            return Ok(());
        }
        self.text.extend_from_slice(room.sent())?;
        Ok(())
    }

    /// Tells the rows that a room has, and its bytes if they are of the stream that is told. It is turned to the connection with
    /// this number.
    ///
    /// # Errors
    /// `AllocError` when out of memory. Bytes aren't told then.
    pub fn show(&mut self, number: u64, room: &Room) -> Result<(), AllocError>
        ensures told { HasRows (showing_by self.old.form) room.now → TellsOn self.old self.new }
        ensures text { OnOk result (self.new.text.items ≡ (self.old.text.items ++ (rows_in room.now).text.items) ++ handed self.old.form number room.now) }
        ensures kept { OnErr result (is_stream self.old.form ≡ true → HasRows (showing_by self.old.form) room.now → self.new.text.items ≡ self.old.text.items) }
        ensures form { self.new.form ≡ self.old.form }
    {
        match self.show_rows(room) {
            Ok(()) => self.hand_out(number, room),
            Err(error) => Err(error),
        }
    }

    /// Tells the report on a connection, whose number and rows the room has, in a capture that starts at this time.
    fn report_on(
        &mut self,
        talk: &Talk,
        number: u64,
        from: u64,
        left: Left,
    ) -> Result<(), AllocError>
        ensures told { OnOk result (Says self.old self.new number from left talk.now) }
        ensures same { OnErr result (TellsOn self.old self.new) }
        ensures text { OnOk result (is_stream self.old.form ≡ true → self.new.text.items ≡ self.old.text.items) }
        ensures kept { OnErr result (self.new.text.items ≡ self.old.text.items) }
        ensures form { self.new.form ≡ self.old.form }
    {
        let ends = talk.ends();
        let body = body_of(talk, from, left);
        match self.tell(&Report {
            number,
            a: ends.a,
            b: ends.b,
            body,
        }) {
            Ok(()) => Ok(()),
            Err(error) => Err(error),
        }
    }

    /// Tells the last rows of a connection, those of its gaps, and the report on it, in a capture that starts at this time.
    ///
    /// `left` says how the connection was left, if it hasn't ended.
    ///
    /// If only a stream is told, these are the bytes that the room has, if they are of it.
    ///
    /// # Errors
    /// `AllocError` when out of memory. The report isn't told then.
    pub fn report(
        &mut self,
        talk: &Talk,
        number: u64,
        from: u64,
        left: Left,
        room: &mut Room,
    ) -> Result<(), AllocError>
        ensures told { OnOk result ((h : HasRows (showing_by self.old.form) room.old)
            → (rows_in room.old).heading ≡ heading_by (showing_by self.old.form) number from
            → SaysAfter self.old self.new number from left talk.now (handed self.old.form number room.old) h.rows) }
        ensures same { OnErr result (HasRows (showing_by self.old.form) room.old → TellsOn self.old self.new) }
        ensures text { OnOk result (is_stream self.old.form ≡ true → HasRows (showing_by self.old.form) room.old
            → self.new.text.items ≡ self.old.text.items ++ handed self.old.form number room.old) }
        ensures part { OnErr result (is_stream self.old.form ≡ true → HasRows (showing_by self.old.form) room.old
            → (self.new.text.items ≡ self.old.text.items) ⊎ (self.new.text.items ≡ self.old.text.items ++ handed self.old.form number room.old)) }
        ensures form { self.new.form ≡ self.old.form }
    {
        self.hand_out(number, room)?;
        talk.show_gaps(room)?;
        self.show_rows(room)?;
        self.report_on(talk, number, from, left)?;
        Ok(())
    }

    /// Tells whether the text is long enough to be written.
    pub fn is_full(&self) -> bool {
        self.text.len() >= ROOM
    }

    /// Writes the text that is kept.
    ///
    /// # Errors
    /// `WriteFault` if a write failed, or took no byte. The first part of the text may be written then.
    pub fn flush<W: Target>(&mut self, writer: &mut W) -> Result<(), WriteFault>
        ensures written { OnOk result ((start : TargetSeen) (reports : List Report) (written : List ℕ)
            → Tells start (W.seen writer.old) self.old reports written
            → Tells start (W.seen writer.new) self.new reports (written ++ self.old.text.items)) }
        ensures empty { OnOk result (IsEmpty self.new) }
        ensures stopped { OnErr result ((start : TargetSeen) (reports : List Report) (written : List ℕ)
            → Tells start (W.seen writer.old) self.old reports written
            → IsStopped self.old.form start (W.seen writer.new) reports (written ++ self.old.text.items)) }
        ensures failed { OnErr result (WriteFailed (W.seen writer.old) (W.seen writer.new)) }
        ensures form { self.new.form ≡ self.old.form }
    {
        match write_out(writer, self.text.as_slice(), ()) {
            Ok(()) => {
                self.text.clear();
                Ok(())
            }
            Err(_) => Err(WriteFault),
        }
    }

    /// Returns how many reports are on BitTorrent connections, at most 2^64 - 1.
    pub fn torrents(&self) -> u64
        ensures { (start now : TargetSeen) (reports : List Report) (written : List ℕ) → Tells start now self.now reports written
            → result ≡ count_torrents reports }
    {
        self.torrents
    }

    /// Tells whether a direction of a chosen report is refused under the lenient rules.
    pub fn is_refused(&self) -> bool
        ensures { (start now : TargetSeen) (reports : List Report) (written : List ℕ) → Tells start now self.now reports written
            → result ≡ is_one_refused (chosen_by self.now.form reports) }
    {
        self.is_refused
    }

    /// Tells whether a chosen report is on a BitTorrent connection of which only a part was read.
    pub fn is_partial(&self) -> bool
        ensures { (start now : TargetSeen) (reports : List Report) (written : List ℕ) → Tells start now self.now reports written
            → result ≡ is_one_partial (chosen_by self.now.form reports) }
    {
        self.is_partial
    }
}
