//! Trackers over UDP (BEP 15).
ghost use Rattle.std.specs.Prelude.{◌≡◌, ◌↔◌, ◌+◌, ◌++◌, ◌≤◌, IfOk, IfSome, IsSome, OnOk, drop, is_some, length, take};
ghost use Rattle.std.specs.Int.{from_be_bytes, w32};
ghost use Rattle.bt_tracker.specs.Udp.{IsAnswer, announce_back, announce_front, announce_of, announce_sizes, connect_of, has_form};

use crate::announce::Announce;
use std::alloc::{AllocError, Global};

/// Returns the question for a connection: 16 bytes.
///
/// # Errors
/// `AllocError` when out of memory.
pub fn connect_question(alloc: Global, transaction: [u8; 4]) -> Result<Vec<u8>, AllocError>
    ensures { IfOk result (λ question. question.items ≡ connect_of transaction) }
{
    let mut question = Vec::new(alloc);
    question.extend_from_slice(&0x417_2710_1980u64.to_be_bytes())?;
    question.extend_from_slice(&0u32.to_be_bytes())?;
    question.extend_from_slice(&transaction)?;
    Ok(question)
}

/// Adds the fields of an announce up to the peer id.
fn push_front(
    question: &mut Vec<u8>,
    connection: [u8; 8],
    transaction: [u8; 4],
    announce: &Announce,
) -> Result<(), AllocError>
    ensures { OnOk result (question.new.items ≡ question.old.items ++ announce_front connection transaction announce.now) }
{
    question.extend_from_slice(&connection)?;
    question.extend_from_slice(&1u32.to_be_bytes())?;
    question.extend_from_slice(&transaction)?;
    question.extend_from_slice(&announce.info_hash)?;
    question.extend_from_slice(&announce.peer_id)?;
    Ok(())
}

/// Adds the three sizes of an announce.
fn push_sizes(question: &mut Vec<u8>, left: u64) -> Result<(), AllocError>
    ensures { OnOk result (question.new.items ≡ question.old.items ++ announce_sizes left) }
{
    question.extend_from_slice(&0u64.to_be_bytes())?;
    question.extend_from_slice(&left.to_be_bytes())?;
    question.extend_from_slice(&0u64.to_be_bytes())?;
    Ok(())
}

/// Adds the fields of an announce from the event on.
fn push_back(question: &mut Vec<u8>, key: [u8; 4], announce: &Announce) -> Result<(), AllocError>
    ensures { OnOk result (question.new.items ≡ question.old.items ++ announce_back key announce.now) }
{
    question.extend_from_slice(&announce.event.number().to_be_bytes())?;
    question.extend_from_slice(&0u32.to_be_bytes())?;
    question.extend_from_slice(&key)?;
    question.extend_from_slice(&announce.wanted.to_be_bytes())?;
    question.extend_from_slice(&announce.port.to_be_bytes())?;
    Ok(())
}

/// Returns the question for the peers of an info hash: 98 bytes.
///
/// `connection` is what the tracker's answer to [`connect_question`] gave, and `key` is the same for each announce of who asks.
///
/// # Errors
/// `AllocError` when out of memory.
pub fn announce_question(
    alloc: Global,
    connection: [u8; 8],
    transaction: [u8; 4],
    key: [u8; 4],
    announce: &Announce,
) -> Result<Vec<u8>, AllocError>
    ensures { IfOk result (λ question. question.items ≡ announce_of connection transaction key announce.now) }
{
    let mut question = Vec::new(alloc);
    push_front(&mut question, connection, transaction, announce)?;
    push_sizes(&mut question, announce.left)?;
    push_back(&mut question, key, announce)?;
    Ok(question)
}

/// What a tracker answers.
#[derive(Clone, Copy, PartialEq, Eq, Debug)]
pub enum UdpAnswer<'a> {
    /// The connection that was asked for, to be named in the announce.
    Connected([u8; 8]),
    /// The peers that were asked for.
    Announced {
        /// How many seconds to wait before the next announce.
        interval: u32,
        /// How many peers have not all pieces.
        leechers: u32,
        /// How many peers have all pieces.
        seeders: u32,
        /// The peers' addresses in compact form, of the family by which the tracker was asked.
        peers: &'a [u8],
    },
    /// A refusal, in the tracker's words.
    Error(&'a [u8]),
}

/// Returns the four bytes at an offset.
fn four_at(bytes: &[u8], at: usize) -> Option<[u8; 4]>
    ensures value { IfSome result (λ x. x ≡ take 4 (drop at bytes.now)) }
    ensures some { IsSome result ↔ (at + 4 ≤ length bytes.now) }
{
    bytes.get(at..)?.first_chunk::<4>().copied()
}

/// Returns the eight bytes at an offset.
fn eight_at(bytes: &[u8], at: usize) -> Option<[u8; 8]>
    ensures value { IfSome result (λ x. x ≡ take 8 (drop at bytes.now)) }
    ensures some { IsSome result ↔ (at + 8 ≤ length bytes.now) }
{
    bytes.get(at..)?.first_chunk::<8>().copied()
}

/// Returns the number of 32 bits at an offset.
fn number_at(bytes: &[u8], at: usize) -> Option<u32>
    ensures value { IfSome result (λ n. n ≡ from_be_bytes w32 (take 4 (drop at bytes.now))) }
    ensures some { IsSome result ↔ (at + 4 ≤ length bytes.now) }
{
    Some(u32::from_be_bytes(four_at(bytes, at)?))
}

/// Returns the transaction id of a tracker's datagram, and the answer in it.
///
/// Returns `None` if its action is not connect, announce or error, or if it has fewer bytes than an answer of its action.
pub fn read_answer(bytes: &[u8]) -> Option<([u8; 4], UdpAnswer<'_>)>
    ensures answer { IfSome result (λ x. IsAnswer x.0 x.1 bytes.now) }
    ensures some { is_some result ≡ has_form bytes.now }
{
    let action = number_at(bytes, 0)?;
    let transaction = four_at(bytes, 4)?;
    match action {
        0 => Some((transaction, UdpAnswer::Connected(eight_at(bytes, 8)?))),
        1 => Some((
            transaction,
            UdpAnswer::Announced {
                interval: number_at(bytes, 8)?,
                leechers: number_at(bytes, 12)?,
                seeders: number_at(bytes, 16)?,
                peers: bytes.get(20..)?,
            },
        )),
        3 => Some((transaction, UdpAnswer::Error(bytes.get(8..)?))),
        _ => None,
    }
}
