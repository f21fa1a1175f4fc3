//! A listener to the items of a stream.
ghost use Rattle.std.specs.Prelude.{◌≡◌, [], option_and_then, unwrap_or, codes};
ghost use Rattle.bt_bencode.specs.Keys.{lookup_of};
ghost use Rattle.bt_bencode.specs.LookUps.{string_of};
ghost use Rattle.bt_bencode.specs.Trees.{dictionary};
ghost use Rattle.bt_ext.specs.Ids.{extension_id};
ghost use Rattle.bt_jobs.specs.Others.{announced as announced_by};

use crate::name::Name;
use bt_bencode::DictRef;
use bt_ext::{ExtId, ExtView, announced_id};
use bt_feed::{Sink, SinkFault, View};
use bt_jobs::Announced;
use bt_wire::{Handshake, MessageView};

/// A sink that keeps what the items so far say of their sender.
#[derive(Drop)]
pub(crate) struct Listener {
    pub(crate) handshake: Option<Handshake>,
    metadata: Option<u8>,
    donthave: Option<u8>,
    pub(crate) extended: bool,
    pub(crate) client: Name,
    pub(crate) items: u64,
}

/// Returns the id of an extension by its number, of which 0 is none.
fn extension(id: Option<u8>) -> Option<ExtId>
    ensures { result ≡ option_and_then extension_id id }
{
    match id {
        Some(id) => ExtId::new(id),
        None => None,
    }
}

/// Returns the client's name in an extended handshake, or nothing.
fn client_in<'a>(dict: &DictRef<'a>) -> &'a [u8]
    ensures { result.now ≡ unwrap_or (option_and_then string_of (lookup_of (codes "v") (dictionary dict.now.tree.0))) [] }
{
    match dict.lookup_bytes(b"v") {
        Some(name) => name,
        None => &[],
    }
}

impl Listener {
    ghost use Rattle.std.specs.Prelude.{option_map};
    ghost use Rattle.bt_intro.specs.Listening.{IsHeard};

    /// A listener that has heard nothing.
    pub(crate) fn new() -> Listener
        ensures { IsHeard [] result }
    {
        Listener {
            handshake: None,
            metadata: None,
            donthave: None,
            extended: false,
            client: Name::new(),
            items: 0,
        }
    }

    /// Returns what the sender announces about itself as a receiver.
    pub(crate) fn announced(&self) -> Option<Announced>
        ensures { result ≡ announced_by (option_map (λ h. h.reserved) self.now.handshake) self.now.metadata self.now.donthave }
    {
        let handshake = self.handshake?;
        Some(Announced {
            reserved: handshake.reserved,
            metadata: extension(self.metadata),
            donthave: extension(self.donthave),
        })
    }
}

impl Sink for Listener {
    ghost use Rattle.bt_intro.specs.Listening.{Hears};

    ghost takes = { Hears };

    ghost misses = { λ _ _ _ _. ⊥ };

    ghost calls = { λ l. l.items };

    ghost failed = { λ _. 0 };

    fn item(&mut self, _at: u64, view: &View<'_>) -> Result<(), SinkFault> {
        self.items = self.items.saturating_add(1);
        match view {
            View::Handshake(handshake) => {
                if self.handshake.is_none() {
                    self.handshake = Some(*handshake);
                }
            }
            View::Message(MessageView::Extended(ExtView::Handshake { dict, rest: _ })) => {
                self.extended = true;
                if self.metadata.is_none() {
                    self.metadata = announced_id(dict, b"ut_metadata");
                }
                if self.donthave.is_none() {
                    self.donthave = announced_id(dict, b"lt_donthave");
                }
                self.client.keep(client_in(dict));
            }
            View::Message(_) => {}
        }
        Ok(())
    }
}
