//! Extended ids (BEP 10), the ids that a receiver registers, and its rules.
ghost use Rattle.std.specs.Prelude.{◌≡◌, ◌<◌, ◌==◌, ◌||◌, None, true, false, IfOk, IfErr};
ghost use Rattle.std.specs.Option.{SomeIff};
ghost use Rattle.bt_ext.specs.Ids.{registered, metadata_only, metadata_id, donthave_id, are_same, is_metadata, is_donthave, needs_dict, is_known};

use std::marker::Model;
use thiserror::Error;

/// What a receiver checks.
#[derive(Clone, Copy, Debug, PartialEq, Eq)]
pub enum Rules {
    /// Lenient rules.
    ///
    /// They check syntax, negotiation and lengths; and piece indexes and spare bits if the piece count is known.
    Free,
    /// Strict rules.
    ///
    /// They also check unknown ids and first messages, and of dictionaries the order of keys, the kinds of fields and the
    /// lengths of blocks.
    Bep,
}

/// An extended id that names an extension: 1 to 255. A contract sees its number.
#[derive(Clone, Copy, Debug, PartialEq, Eq)]
pub struct ExtId {
    id: u8,
}

impl Model for ExtId {
    ghost use Rattle.std.specs.Prelude.{ℕ, ◌<◌};

    ghost Value = { ℕ };

    ghost view = { λ a. a.id };

    ghost invariant = { λ a. 0 < a.id };

    ghost inverse = { λ n. record { id = n } };
}

impl ExtId {
    /// Makes an id of this number; `None` for 0, which is the extended handshake's.
    pub fn new(id: u8) -> Option<ExtId>
        ensures { SomeIff result (0 < id) id }
    {
        if id == 0 { None } else { Some(ExtId { id }) }
    }

    /// Returns the number, 1 to 255.
    pub fn get(self) -> u8
        ensures same { result ≡ self }
        ensures above { 0 < result }
    {
        self.id
    }
}

/// Two extensions were given one id.
#[derive(Clone, Copy, Debug, PartialEq, Eq, Error)]
#[error("two extensions under one id")]
pub struct SameId;

/// The ids under which a receiver wants extensions.
#[derive(Clone, Copy, Debug, PartialEq, Eq)]
pub struct Registered {
    metadata: Option<ExtId>,
    donthave: Option<ExtId>,
}

impl Registered {
    /// Registers the ids of `ut_metadata` (BEP 9) and of `lt_donthave`.
    ///
    /// Either may be missing.
    ///
    /// # Errors
    /// `SameId` if both are given and equal.
    pub fn new(metadata: Option<ExtId>, donthave: Option<ExtId>) -> Result<Registered, SameId>
        ensures ids { IfOk result (λ reg. reg ≡ registered metadata donthave) }
        ensures metadata { IfOk result (λ reg. metadata_id reg ≡ metadata) }
        ensures donthave { IfOk result (λ reg. donthave_id reg ≡ donthave) }
        ensures apart { IfOk result (λ _. are_same metadata donthave ≡ false) }
        ensures same { IfErr result (λ _. are_same metadata donthave ≡ true) }
    {
        let mut reg = Registered::metadata_only(metadata);
        if let Some(id) = donthave {
            let number = id.get();
            if reg.is_metadata(number) {
                return Err(SameId);
            }
            reg.donthave = Some(id);
        }
        Ok(reg)
    }

    /// Registers both ids, or only that of `ut_metadata` if they are equal.
    pub fn preferring_metadata(metadata: Option<ExtId>, donthave: Option<ExtId>) -> Registered
        ensures { result ≡ registered metadata donthave }
    {
        let mut reg = Registered::metadata_only(metadata);
        if let Some(id) = donthave {
            let number = id.get();
            if !reg.is_metadata(number) {
                reg.donthave = Some(id);
            }
        }
        reg
    }

    /// Registers only the id of `ut_metadata` (BEP 9), or none.
    pub fn metadata_only(metadata: Option<ExtId>) -> Registered
        ensures ids { result ≡ metadata_only metadata }
        ensures metadata { metadata_id result ≡ metadata }
        ensures donthave { donthave_id result ≡ None }
    {
        if let Some(id) = metadata {
            let number = id.get();
            prove!(number > 0);
        }
        Registered {
            metadata,
            donthave: None,
        }
    }

    /// Returns the registered id of `ut_metadata`.
    pub fn metadata(&self) -> Option<ExtId>
        ensures { result ≡ metadata_id self.now }
    {
        let id = self.metadata?;
        let number = id.get();
        prove!(number > 0);
        Some(id)
    }

    /// Returns the registered id of `lt_donthave`.
    pub fn donthave(&self) -> Option<ExtId>
        ensures { result ≡ donthave_id self.now }
    {
        let id = self.donthave?;
        let number = id.get();
        if self.is_metadata(number) {
            None
        } else {
            Some(id)
        }
    }

    /// Returns whether the id is the registered one of `ut_metadata`.
    pub(crate) fn is_metadata(&self, id: u8) -> bool
        ensures { result ≡ is_metadata self.now id }
    {
        match self.metadata() {
            Some(metadata) => metadata.get() == id,
            None => false,
        }
    }

    /// Returns whether the id is the registered one of `lt_donthave`.
    pub(crate) fn is_donthave(&self, id: u8) -> bool
        ensures { result ≡ is_donthave self.now id }
    {
        match self.donthave() {
            Some(donthave) => donthave.get() == id,
            None => false,
        }
    }

    /// Returns whether a payload under the id begins with a dictionary.
    pub(crate) fn needs_dict(&self, id: u8) -> bool
        ensures { result ≡ needs_dict self.now id }
    {
        id == 0 || self.is_metadata(id)
    }

    /// Returns whether the id has a meaning: it is 0, or registered.
    pub fn is_known(&self, id: u8) -> bool
        ensures { result ≡ is_known self.now id }
    {
        self.needs_dict(id) || self.is_donthave(id)
    }
}
