//! Rows of what the sides of a connection do, as they come.
ghost use Rattle.std.specs.Prelude.{◌≡◌, ◌-◌, OnOk, OnErr, [], ◌∷◌};
ghost use Rattle.bt_talk.specs.Rows.{row_at};
ghost use Rattle.bt_talk.specs.Shows.{Appends};

use crate::closing::When;
use bt_remarks::{Remarks, Side};
use bt_rows::{Deed, Row, RowBuffer, RowForm, Said, Stamp};
use std::alloc::{AllocError, Global};

/// How rows are shown.
#[derive(Clone, Copy, PartialEq, Eq, Debug)]
pub enum Showing {
    /// There are none.
    Nothing,
    /// Each is a line of text.
    Text,
    /// Each is a JSON object on a line.
    Objects,
}

/// What the rows of a connection have in common.
#[derive(Clone, Copy)]
pub(crate) struct Heading {
    pub(crate) showing: Showing,
    /// The connection's number.
    pub(crate) connection: u64,
    /// The time of the capture's first packet, in nanoseconds.
    pub(crate) start: u64,
}

/// The heading of a connection without rows.
pub(crate) const NO_HEADING: Heading = Heading {
    showing: Showing::Nothing,
    connection: 0,
    start: 0,
};

/// No remark.
pub(crate) const NO_REMARKS: Remarks = Remarks {
    unasked: false,
    choked: false,
    again: false,
    elsewhere: false,
};

/// The rows of a connection that came with a packet, as text.
#[derive(Drop)]
pub(crate) struct Rows {
    pub(crate) heading: Heading,
    pub(crate) text: RowBuffer,
}

impl Rows {
    /// Returns those of no packet.
    pub(crate) fn new(alloc: Global, heading: Heading) -> Rows
        ensures heading { result.heading ≡ heading }
        ensures empty { result.text.items ≡ [] }
    {
        Rows {
            heading,
            text: RowBuffer::new(alloc),
        }
    }

    /// Turns to the next packet, of which there is no row yet, and to its connection.
    pub(crate) fn begin(&mut self, heading: Heading)
        ensures heading { self.new.heading ≡ heading }
        ensures empty { self.new.text.items ≡ [] }
    {
        self.text.clear();
        self.heading = heading;
    }

    /// Returns what the rows of a side's items have in common if they come with this packet.
    #[inline(always)]
    fn stamp(&self, form: RowForm, when: When, side: Side) -> Stamp
        ensures form { result.form ≡ form }
        ensures connection { result.connection ≡ self.now.heading.connection }
        ensures packet { result.packet ≡ when.packet }
        ensures at { result.at ≡ when.nanos - self.now.heading.start }
        ensures side { result.side ≡ side }
    {
        Stamp {
            form,
            connection: self.heading.connection,
            packet: when.packet,
            at: when.nanos.saturating_sub(self.heading.start),
            side,
        }
    }

    /// Appends the row of an item, if rows are shown.
    ///
    /// # Errors
    /// `AllocError` when out of memory.
    #[inline(always)]
    pub(crate) fn put_item(
        &mut self,
        when: When,
        side: Side,
        said: &Said,
        remarks: Remarks,
    ) -> Result<(), AllocError>
        ensures ok { OnOk result (Appends (row_at self.old.heading when side said.now.offset (Deed.Item said.now.words) remarks ∷ []) self.old self.new) }
        ensures err { OnErr result (Appends [] self.old self.new) }
    {
        match self.heading.showing {
            Showing::Nothing => Ok(()),
            Showing::Text => {
                let stamp = self.stamp(RowForm::Text, when, side);
                self.text.put_item(&stamp, said, &remarks)
            }
            Showing::Objects => {
                let stamp = self.stamp(RowForm::Object, when, side);
                self.text.put_item(&stamp, said, &remarks)
            }
        }
    }

    /// Appends a row, if rows are shown.
    ///
    /// # Errors
    /// `AllocError` when out of memory.
    pub(crate) fn put(
        &mut self,
        when: When,
        side: Side,
        offset: u64,
        deed: Deed,
        remarks: Remarks,
    ) -> Result<(), AllocError>
        ensures ok { OnOk result (Appends (row_at self.old.heading when side offset deed remarks ∷ []) self.old self.new) }
        ensures err { OnErr result (Appends [] self.old self.new) }
    {
        let row = Row {
            connection: self.heading.connection,
            at: when.nanos.saturating_sub(self.heading.start),
            side,
            offset,
            deed,
            remarks,
        };
        match self.heading.showing {
            Showing::Nothing => Ok(()),
            Showing::Text => self.text.put(&row),
            Showing::Objects => self.text.put_object(when.packet, &row),
        }
    }
}
