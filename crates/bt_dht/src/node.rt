//! The nodes and the peers of an answer, one at a time (BEP 5, "Contact Encoding"; BEP 32).
ghost use Rattle.std.specs.Prelude.{◌≡◌, ◌+◌, ◌<◌, ◌≤◌, ◌∷◌, [], IfSome, None, drop, length, take};
ghost use Rattle.bt_address.specs.Compact.{IsPlainOf, compact_of, size_of};
ghost use Rattle.bt_bencode.specs.Views.{tree_of, trees_of};
ghost use Rattle.bt_dht.specs.Messages.{if_address, peer_in as peer_in_by, peers_in};
ghost use Rattle.bt_dht.specs.Nodes.{IsPlain};

use bt_address::{Family, split_address};
use bt_bencode::Value;
use std::net::SocketAddr;

/// A node of the DHT.
#[derive(Clone, Copy)]
pub struct Node {
    pub id: [u8; 20],
    pub address: SocketAddr,
}

/// Returns the node that infos begin with, and the infos after it.
///
/// An info has 26 bytes for IPv4, and 38 for IPv6: the id, and then the address. Returns `None` if there are fewer bytes.
pub fn split_node(family: Family, infos: &[u8]) -> Option<(Node, &[u8])>
    ensures id { IfSome result (λ x. x.0.id ≡ take 20 infos.now) }
    ensures address { IfSome result (λ x. compact_of x.0.address ≡ take (size_of family) (drop 20 infos.now)) }
    ensures plain { IfSome result (λ x. IsPlainOf family x.0.address) }
    ensures rest { IfSome result (λ x. x.1.now ≡ drop (20 + size_of family) infos.now) }
    ensures whole { IfSome result (λ x. 20 + size_of family ≤ length infos.now) }
    ensures none { result ≡ None → length infos.now < 20 + size_of family }
{
    let (id, rest) = infos.split_first_chunk::<20>()?;
    let (address, rest) = split_address(family, rest)?;
    Some((Node { id: *id, address }, rest))
}

/// Returns the address that bytes are, if they are as many as an address has.
fn address_of(bytes: &[u8]) -> Option<SocketAddr>
    ensures some { IfSome result (λ a. if_address bytes.now ≡ compact_of a ∷ []) }
    ensures plain { IfSome result IsPlain }
    ensures none { result ≡ None → if_address bytes.now ≡ [] }
{
    let family = match bytes.len() {
        6 => Family::V4,
        18 => Family::V6,
        _ => return None,
    };
    let (address, _) = split_address(family, bytes)?;
    Some(address)
}

/// Returns the address that a value is.
fn peer_in(value: &Value) -> Option<SocketAddr>
    ensures some { IfSome result (λ a. peer_in_by (tree_of value.now) ≡ compact_of a ∷ []) }
    ensures plain { IfSome result IsPlain }
    ensures none { result ≡ None → peer_in_by (tree_of value.now) ≡ [] }
{
    match value {
        Value::Bytes(text) => address_of(text.as_slice()),
        _ => None,
    }
}

/// Returns the first peer of an answer's values, and the values after it; `None` if no value is a peer.
///
/// A peer is a string of 6 bytes, an IPv4 address, or of 18, an IPv6 address. Other values are passed over.
pub fn next_peer(values: &[Value]) -> Option<(SocketAddr, &[Value])>
    ensures next { IfSome result (λ x. peers_in (trees_of values.now) ≡ compact_of x.0 ∷ peers_in (trees_of x.1.now)) }
    ensures plain { IfSome result (λ x. IsPlain x.0) }
    ensures shorter { IfSome result (λ x. length x.1.now < length values.now) }
    ensures none { result ≡ None → peers_in (trees_of values.now) ≡ [] }
{
    let mut rest = values;
    while let Some((value, more)) = rest.split_first() {
        rest = more;
        if let Some(address) = peer_in(value) {
            return Some((address, rest));
        }
    }
    None
}
