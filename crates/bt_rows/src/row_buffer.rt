//! Rows that are appended to one another, and room after them.
ghost use Rattle.std.specs.Prelude.{◌≡◌, ◌+◌, ◌≤◌, [], ◌++◌, length, take, vec_len, OnErr, OnOk};
ghost use Rattle.bt_rows.specs.Fronts.{item_row, line_end, object_end, text_by};
ghost use Rattle.bt_rows.specs.Rows.{row_object, row_text};

use crate::fronts::{Front, RowForm, Stamp};
use crate::members::put_item;
use crate::rows::{Row, put_line_remarks, put_object_remarks, put_row, put_row_object};
use crate::said::{Said, Words, put_words};
use bt_remarks::Remarks;
use bt_text::putting::{grow, put_word};
use std::alloc::{AllocError, Global};
use std::marker::Model;

/// How many bytes of room the row of an item needs.
const ROOM: usize = 570;

/// How many bytes the text grows by if it has no room, besides the room.
const GROWTH: usize = 1024;

/// The text of rows.
///
/// The room after it stays when it is cleared, and isn't filled again.
#[derive(Drop)]
pub struct RowBuffer {
    alloc: Global,
    bytes: Vec<u8>,
    /// The length of the text.
    used: usize,
    /// The front of the last row of an item, if there was one.
    front: Option<Box<Front>>,
}

impl Model for RowBuffer {
    ghost use Rattle.std.specs.Prelude.{take, vec_len, ◌≤◌};
    ghost use Rattle.bt_rows.specs.Fronts.{Lines};

    ghost Value = { Lines };

    ghost view = { λ b. record { items = take b.used b.bytes.items } };

    ghost invariant = { λ b. b.used ≤ vec_len b.bytes };
}

/// Makes the text longer, by the room and more after what is used.
#[inline(never)]
fn make_room(bytes: &mut Vec<u8>, used: usize) -> Result<(), AllocError>
    requires { used ≤ vec_len bytes.old }
    ensures ok { OnOk result (used + 570 ≤ vec_len bytes.new) }
    ensures kept { (used ≤ vec_len bytes.new) × (take used bytes.new.items ≡ take used bytes.old.items) }
{
    bytes.truncate(used);
    grow(bytes, ROOM + GROWTH)?;
    Ok(())
}

/// Puts what follows the offset of an item on its line.
#[inline(always)]
fn end_line(words: &Words, remarks: &Remarks, text: &mut [u8], at: usize) -> usize
    requires { at + 172 ≤ length text.old }
    ensures room { (at ≤ result) × (result ≤ at + 172) }
    ensures size { length text.new ≡ length text.old }
    ensures text { take result text.new ≡ take at text.old ++ line_end words.now remarks.now }
{
    let at = put_word(b" ", text, at);
    let at = put_words(words, text, at);
    let at = put_line_remarks(remarks, text, at);
    put_word(b"\n", text, at)
}

/// Puts what follows the offset of an item in its object.
#[inline(always)]
fn end_object(words: &Words, remarks: &Remarks, text: &mut [u8], at: usize) -> usize
    requires { at + 399 ≤ length text.old }
    ensures room { (at ≤ result) × (result ≤ at + 399) }
    ensures size { length text.new ≡ length text.old }
    ensures text { take result text.new ≡ take at text.old ++ object_end words.now remarks.now }
{
    let at = put_item(words, text, at);
    let at = put_object_remarks(remarks, text, at);
    put_word(b"}\n", text, at)
}

/// Puts an item's row.
#[inline(always)]
fn put_item_row(
    front: &mut Front,
    stamp: &Stamp,
    said: &Said,
    remarks: &Remarks,
    text: &mut [u8],
    at: usize,
) -> usize
    requires { at + 570 ≤ length text.old }
    ensures room { (at ≤ result) × (result ≤ at + 570) }
    ensures size { length text.new ≡ length text.old }
    ensures text { take result text.new ≡ take at text.old ++ text_by stamp.now.form stamp.now.packet (item_row stamp.now said.now remarks.now) }
{
    let at = front.put(stamp, said.offset, text, at);
    match stamp.form {
        RowForm::Text => end_line(&said.words, remarks, text, at),
        RowForm::Object => end_object(&said.words, remarks, text, at),
    }
}

/// Makes a front on the heap.
#[inline(never)]
fn boxed(alloc: Global, stamp: &Stamp) -> Result<Box<Front>, AllocError> {
    let front = Box::new(alloc, Front::new(stamp))?;
    Ok(front)
}

impl RowBuffer {
    /// Makes a buffer without rows.
    pub fn new(alloc: Global) -> RowBuffer
        ensures { result.items ≡ [] }
    {
        RowBuffer {
            alloc,
            bytes: Vec::new(alloc),
            used: 0,
            front: None,
        }
    }

    /// Drops the rows.
    pub fn clear(&mut self)
        ensures { self.new.items ≡ [] }
    {
        self.used = 0;
    }

    /// Returns the text of the rows.
    pub fn as_slice(&self) -> &[u8]
        ensures { result.now ≡ self.now.items }
    {
        &self.bytes.as_slice()[..self.used]
    }

    /// Appends the row of an item.
    ///
    /// # Errors
    /// `AllocError` when out of memory; the text is then as before.
    #[inline(never)]
    pub fn put_item(
        &mut self,
        stamp: &Stamp,
        said: &Said,
        remarks: &Remarks,
    ) -> Result<(), AllocError>
        ensures ok { OnOk result (self.new.items ≡ self.old.items ++ text_by stamp.now.form stamp.now.packet (item_row stamp.now said.now remarks.now)) }
        ensures err { OnErr result (self.new.items ≡ self.old.items) }
    {
        if self.bytes.len() - self.used < ROOM {
            make_room(&mut self.bytes, self.used)?;
        }
        if self.front.is_none() {
            self.front = Some(boxed(self.alloc, stamp)?);
        }
        let Some(front) = &mut self.front else {
            unreachable!();
        };
        let text = self.bytes.as_mut_slice();
        self.used = put_item_row(front, stamp, said, remarks, text, self.used);
        Ok(())
    }

    /// Appends a row as text.
    ///
    /// # Errors
    /// `AllocError` when out of memory; the text is then as before.
    pub fn put(&mut self, row: &Row) -> Result<(), AllocError>
        ensures ok { OnOk result (self.new.items ≡ self.old.items ++ row_text row.now) }
        ensures err { OnErr result (self.new.items ≡ self.old.items) }
    {
        self.bytes.truncate(self.used);
        put_row(row, &mut self.bytes)?;
        self.used = self.bytes.len();
        Ok(())
    }

    /// Appends a row as a JSON object on a line, with its packet's number, counted from 1.
    ///
    /// # Errors
    /// `AllocError` when out of memory; the text is then as before.
    pub fn put_object(&mut self, packet: u64, row: &Row) -> Result<(), AllocError>
        ensures ok { OnOk result (self.new.items ≡ self.old.items ++ row_object packet row.now) }
        ensures err { OnErr result (self.new.items ≡ self.old.items) }
    {
        self.bytes.truncate(self.used);
        put_row_object(packet, row, &mut self.bytes)?;
        self.used = self.bytes.len();
        Ok(())
    }
}
