//! The encoding of a message as a head, of at most 17 bytes, and a tail, which is one slice of the message.
ghost use Rattle.std.specs.Prelude.{◌≡◌, ◌+◌, ◌≤◌, ◌++◌, length as list_length};
ghost use Rattle.bt_wire.specs.Messages.{framed, seen, spell_fields};
ghost use Rattle.bt_wire.specs.Numbers.{be32};

use crate::fields::Fields;
use std::marker::Model;

/// The first bytes of a message: its length, its id and at most three numbers.
#[derive(Drop)]
pub struct Head {
    bytes: [u8; 17],
    count: usize,
}

impl Model for Head {
    ghost use Rattle.std.specs.Prelude.{◌≤◌, ℕ, List, take};

    ghost Value = { List ℕ };

    ghost view = { λ h. take h.count h.bytes };

    ghost invariant = { λ h. h.count ≤ 17 };
}

impl Head {
    /// Returns a head with the length of what follows it.
    fn new(length: u32) -> Head
        ensures bytes { result ≡ be32 length }
        ensures size { list_length result ≡ 4 }
    {
        let [a, b, c, d] = length.to_be_bytes();
        Head {
            bytes: [a, b, c, d, 0, 0, 0, 0, 0, 0, 0, 0, 0, 0, 0, 0, 0],
            count: 4,
        }
    }

    /// Appends bytes.
    #[inline(always)]
    fn put(&mut self, bytes: &[u8])
        requires { list_length self.old + list_length bytes.now ≤ 17 }
        ensures { self.new ≡ self.old ++ bytes.now }
    {
        let end = self.count + bytes.len();
        self.bytes[self.count..end].copy_from_slice(bytes);
        self.count = end;
    }

    /// Appends the numbers of a message, and returns the bytes after them.
    fn put_numbers<'a>(&mut self, fields: &Fields<'a>) -> &'a [u8]
        requires { list_length self.old ≤ 5 }
        ensures { self.new ++ result.now ≡ self.old ++ spell_fields (seen fields.now) }
    {
        match fields {
            Fields::Nothing => &[],
            Fields::Index(index) => {
                self.put(&index.to_be_bytes());
                &[]
            }
            Fields::Part {
                index,
                begin,
                length,
            } => {
                self.put(&index.to_be_bytes());
                self.put(&begin.to_be_bytes());
                self.put(&length.to_be_bytes());
                &[]
            }
            Fields::Block {
                index,
                begin,
                block,
            } => {
                self.put(&index.to_be_bytes());
                self.put(&begin.to_be_bytes());
                block
            }
            Fields::Port(port) => {
                self.put(&port.to_be_bytes());
                &[]
            }
            Fields::Field(bits) => bits,
            Fields::Payload(payload) => payload,
        }
    }

    /// Returns the bytes.
    pub fn as_slice(&self) -> &[u8]
        ensures { result.now ≡ self.now }
    {
        &self.bytes[..self.count]
    }
}

/// Encodes a message that isn't extended as a head and the bytes after it.
///
/// `length` is the length prefix, and `id` is `None` for a keep-alive, which has no fields.
pub fn head_and_tail<'a>(length: u32, id: Option<u8>, fields: &Fields<'a>) -> (Head, &'a [u8])
    ensures bytes { result.0 ++ result.1.now ≡ be32 length ++ framed id (spell_fields (seen fields.now)) }
    ensures size { list_length result.0 + list_length result.1.now ≡ 4 + list_length (framed id (spell_fields (seen fields.now))) }
{
    let mut head = Head::new(length);
    match id {
        None => (head, &[]),
        Some(id) => {
            head.put(&[id]);
            let tail = head.put_numbers(fields);
            (head, tail)
        }
    }
}
