//! The names and ids that a peer announced (BEP 10). Which pairs of `m` count is in `told`.
ghost use Rattle.std.specs.Prelude.{◌≡◌, ◌↔◌, ◌+◌, ◌<◌, ◌≤◌, [], ◌∷◌, ◌++◌, length, min, OnOk, OnErr, IfOk, IfSome, IsTrue, vec_len, vec_capacity};
ghost use Rattle.bt_bencode.specs.Trees.{dictionary};
ghost use Rattle.bt_bencode.specs.Views.{tree_of};
ghost use Rattle.bt_ext.specs.Tables.{Entries, id_of_name, told_ids, entered, entered_all, applied, IsTable};
ghost use Rattle.bt_ext.specs.Updates.{with_id, renumbered, IsChange, IsUpdate, FollowsNames};
ghost use Rattle.bt_ext.specs.Holding.{entries_of, names_of, HasNames, HoldsAt};

use crate::dict::Dict;
use crate::ids::{ExtId, Registered};
use crate::name::Name;
use crate::told::{add_name, told_of};
use bt_bencode::{DictRef, Value};
use std::alloc::{AllocError, Allocator, Global};
use std::collections::BTreeSet;
use std::marker::Model;

/// The most names that a table keeps.
const MAX_NAMES: usize = 256;

/// The longest name that a table keeps.
const MAX_NAME: usize = 255;

/// The most pairs that are entered without a set of the table's names.
///
/// So many searches of a full table cost less than the set.
const FEW: usize = 16;

/// For how many names more than it has a table may have room when a handshake changes only ids.
const SPARE: usize = 16;

/// The peer's names of extensions and the ids under which it wants them (BEP 10).
///
/// A contract sees the names with their ids: a finite map of at most 256 names, each once and of at most 255 bytes, and ids
/// from 1 to 255. To apply an extended handshake's payload and look up an id:
///
/// ```rust
/// match check(payload) {
///     Ok((dict, _)) => table.apply_ref(&dict).is_ok() && table.id_of(name) == id,
///     Err(_) => false,
/// }
/// ```
#[derive(Debug, Drop)]
pub struct Table<A: Allocator = Global> {
    entries: Vec<(Name<A>, u8), A>,
}

/// A change of a table: all that it takes, allocated.
///
/// [`Table::prepare`] makes it, and [`Table::update`] takes it.
#[derive(Debug, Drop)]
pub struct Update<A: Allocator = Global> {
    change: Change<A>,
}

#[derive(Debug, Drop)]
enum Change<A: Allocator> {
    /// Ids for the names at these places.
    Renumber(Vec<(usize, u8), A>),
    /// Few pairs, and an empty vector with room for the table after them.
    Enter {
        copies: Vec<(Name<A>, u8), A>,
        room: Vec<(Name<A>, u8), A>,
    },
    /// The table after many pairs.
    Replace(Table<A>),
}

impl<A: Allocator> Model for Table<A> {
    ghost use Rattle.std.specs.Prelude.{List, ℕ};
    ghost use Rattle.bt_ext.specs.Tables.{IsTable};

    ghost Value = { List (List ℕ × ℕ) };

    ghost view = { λ t. t.entries.items };

    ghost invariant = { λ t. IsTable t.entries.items };
}

/// Returns the index of a name.
fn place_of<A: Allocator>(entries: &[(Name<A>, u8)], name: &[u8]) -> Option<usize>
    ensures { HoldsAt name.now entries.now result }
{
    for (i, (known, _)) in entries.iter().enumerate() {
        if known.as_slice() == name {
            return Some(i);
        }
    }
    None
}

/// Adds an entry at the end.
fn push_entry<A: Allocator + Copy>(
    entries: &mut Vec<(Name<A>, u8), A>,
    name: &[u8],
    id: u8,
) -> Result<(), AllocError>
    ensures ok { OnOk result (entries.new.items ≡ entries.old.items ++ (name.now, id) ∷ []) }
    ensures memory { OnErr result (entries.new.items ≡ entries.old.items) }
{
    let name = Name::copied(*entries.allocator(), name)?;
    entries.push((name, id))?;
    Ok(())
}

/// Copies entries, with room for no more.
fn copied<A: Allocator + Copy>(
    entries: &Vec<(Name<A>, u8), A>,
) -> Result<Vec<(Name<A>, u8), A>, AllocError>
    ensures items { IfOk result (λ copies. copies.items ≡ entries.now.items) }
    ensures room { IfOk result (λ copies. vec_capacity copies ≡ vec_len entries.now) }
{
    let alloc = *entries.allocator();
    let mut copies = Vec::with_capacity(alloc, entries.len())?;
    for (name, id) in entries {
        let name = Name::copied(alloc, name.as_slice())?;
        copies.push_reserved((name, *id));
    }
    Ok(copies)
}

/// Takes an id for a name, as the table's rules are.
fn enter<A: Allocator + Copy>(
    entries: &mut Vec<(Name<A>, u8), A>,
    name: &[u8],
    id: u8,
) -> Result<(), AllocError>
    ensures ok { OnOk result (entries.new.items ≡ entered name.now id entries.old.items) }
    ensures memory { OnErr result (entries.new.items ≡ entries.old.items) }
{
    if name.len() > MAX_NAME {
        return Ok(());
    }
    match place_of(entries, name) {
        Some(i) if id == 0 => {
            let _ = entries.remove(i);
        }
        Some(i) => entries[i].1 = id,
        None if id != 0 && entries.len() < MAX_NAMES => {
            push_entry(entries, name, id)?;
        }
        None => {}
    }
    Ok(())
}

/// Returns whether a table has no more room than few names need.
///
/// Else its entries are moved to where they have less, so that its memory follows its names.
fn has_little_room<A: Allocator>(entries: &Vec<(Name<A>, u8), A>) -> bool
    ensures { IsTrue result ↔ (vec_capacity entries.now ≤ vec_len entries.now + 16) }
{
    entries.capacity() <= entries.len() + SPARE
}

/// Adds a copy of a pair at the end, unless its name is too long for a table.
fn push_copy<A: Allocator + Copy>(
    copies: &mut Vec<(Name<A>, u8), A>,
    name: &[u8],
    id: u8,
) -> Result<(), AllocError>
    ensures entries { OnOk result ((es : Entries) → entered_all copies.new.items es ≡ entered name.now id (entered_all copies.old.items es)) }
    ensures len { OnOk result (vec_len copies.new ≤ vec_len copies.old + 1) }
{
    if name.len() > MAX_NAME {
        return Ok(());
    }
    push_entry(copies, name, id)
}

/// Copies the pairs that can change a table.
fn copy_told<A: Allocator + Copy>(
    alloc: A,
    told: &[(&[u8], u8)],
) -> Result<Vec<(Name<A>, u8), A>, AllocError>
    ensures entries { IfOk result (λ copies. (es : Entries) → entered_all copies.items es ≡ entered_all (entries_of told.now) es) }
    ensures len { IfOk result (λ copies. vec_len copies ≤ length told.now) }
{
    let mut copies = Vec::with_capacity(alloc, told.len())?;
    for (name, id) in told {
        push_copy(&mut copies, name, *id)?;
    }
    Ok(copies)
}

/// Enters a copied pair, as the table's rules are, without an allocation.
fn enter_copy<A: Allocator>(entries: &mut Vec<(Name<A>, u8), A>, name: Name<A>, id: u8)
    requires { vec_len entries.old < 256 → vec_len entries.old < vec_capacity entries.old }
    ensures items { entries.new.items ≡ entered name id entries.old.items }
    ensures len { vec_len entries.new ≤ vec_len entries.old + 1 }
    ensures capacity { vec_capacity entries.new ≡ vec_capacity entries.old }
{
    if name.as_slice().len() > MAX_NAME {
        return;
    }
    match place_of(entries, name.as_slice()) {
        Some(i) if id == 0 => {
            let _ = entries.remove(i);
        }
        Some(i) => entries[i].1 = id,
        None if id > 0 && entries.len() < MAX_NAMES => entries.push_reserved((name, id)),
        None => {}
    }
}

/// Enters copied pairs in order, without an allocation.
fn enter_copies<A: Allocator>(entries: &mut Vec<(Name<A>, u8), A>, copies: Vec<(Name<A>, u8), A>)
    requires { min (vec_len entries.old + vec_len copies) 256 ≤ vec_capacity entries.old }
    ensures items { entries.new.items ≡ entered_all copies.items entries.old.items }
    ensures capacity { vec_capacity entries.new ≡ vec_capacity entries.old }
{
    for (name, id) in copies {
        enter_copy(entries, name, id);
    }
}

/// Adds the place of a pair's name, with its id, and returns whether the pair adds no name and removes none.
fn push_place<A: Allocator>(
    places: &mut Vec<(usize, u8), A>,
    entries: &[(Name<A>, u8)],
    name: &[u8],
    id: u8,
) -> Result<bool, AllocError>
    ensures { IfOk result (λ keeps. IsTrue keeps
        → renumbered places.new.items entries.now ≡ entered name.now id (renumbered places.old.items entries.now)) }
{
    if name.len() > MAX_NAME {
        return Ok(true);
    }
    match place_of(entries, name) {
        Some(i) if id != 0 => {
            places.push((i, id))?;
            Ok(true)
        }
        None if id == 0 => Ok(true),
        _ => Ok(false),
    }
}

/// Returns the places of the names with their new ids, if no pair adds a name or removes one.
///
/// So it is when a handshake comes again.
fn places_of<A: Allocator>(
    alloc: A,
    entries: &[(Name<A>, u8)],
    told: &[(&[u8], u8)],
) -> Result<Option<Vec<(usize, u8), A>>, AllocError>
    ensures { IfOk result (λ places. IfSome places (λ v. renumbered v.items entries.now ≡ entered_all (entries_of told.now) entries.now)) }
{
    let mut places = Vec::with_capacity(alloc, told.len())?;
    for (name, id) in told {
        if !push_place(&mut places, entries, name, *id)? {
            return Ok(None);
        }
    }
    Ok(Some(places))
}

/// Sets the id at a place, if there is one.
fn set_id<A: Allocator>(entries: &mut Vec<(Name<A>, u8), A>, place: usize, id: u8)
    ensures { entries.new.items ≡ with_id place id entries.old.items }
{
    if place < entries.len() {
        entries[place].1 = id;
    }
}

/// Sets the ids at places.
fn set_ids<A: Allocator>(entries: &mut Vec<(Name<A>, u8), A>, places: &[(usize, u8)])
    ensures { entries.new.items ≡ renumbered places.now entries.old.items }
{
    for (place, id) in places {
        set_id(entries, *place, *id);
    }
}

/// Returns an empty vector with room for a table after few pairs, and for no more.
fn room_for<A: Allocator>(
    alloc: A,
    entries: &[(Name<A>, u8)],
    copies: &[(Name<A>, u8)],
) -> Result<Vec<(Name<A>, u8), A>, AllocError>
    ensures empty { IfOk result (λ room. room.items ≡ []) }
    ensures room { IfOk result (λ room. vec_capacity room ≡ min (length entries.now + length copies.now) 256) }
{
    let most = (entries.len() + copies.len()).min(MAX_NAMES);
    Vec::with_capacity(alloc, most)
}

/// Moves the entries to where there is room, and takes ids for names there, without an allocation.
fn enter_in_room<A: Allocator>(
    entries: &mut Vec<(Name<A>, u8), A>,
    copies: Vec<(Name<A>, u8), A>,
    room: Vec<(Name<A>, u8), A>,
)
    requires few { vec_len entries.old ≤ 256 }
    requires empty { room.items ≡ [] }
    requires room { min (vec_len entries.old + vec_len copies) 256 ≤ vec_capacity room }
    ensures { entries.new.items ≡ entered_all copies.items entries.old.items }
{
    let mut room = room;
    match room.append(entries) {
        Ok(()) => {}
        Err(_) => unreachable!(),
    }
    enter_copies(&mut room, copies);
    *entries = room;
}

/// Makes the change that enters few pairs where there is room for them, and for no more.
fn enter_later<A: Allocator + Copy>(
    entries: &Vec<(Name<A>, u8), A>,
    told: &[(&[u8], u8)],
) -> Result<Change<A>, AllocError>
    requires { length told.now ≤ 16 }
    ensures change { IfOk result (λ change. IsChange entries.now.items (entered_all (entries_of told.now) entries.now.items) change) }
    ensures memory { IfOk result (λ change. FollowsNames (vec_len entries.now) (vec_capacity entries.now) change) }
{
    let alloc = *entries.allocator();
    let copies = copy_told(alloc, told)?;
    let room = room_for(alloc, entries, &copies)?;
    Ok(Change::Enter { copies, room })
}

/// Makes the change that takes ids for few names.
fn change_few<A: Allocator + Copy>(
    entries: &Vec<(Name<A>, u8), A>,
    told: &[(&[u8], u8)],
) -> Result<Change<A>, AllocError>
    requires { length told.now ≤ 16 }
    ensures change { IfOk result (λ change. IsChange entries.now.items (entered_all (entries_of told.now) entries.now.items) change) }
    ensures memory { IfOk result (λ change. FollowsNames (vec_len entries.now) (vec_capacity entries.now) change) }
{
    if !has_little_room(entries) {
        return enter_later(entries, told);
    }
    match places_of(*entries.allocator(), entries, told)? {
        Some(places) => Ok(Change::Renumber(places)),
        None => enter_later(entries, told),
    }
}

impl<A: Allocator + Copy> Table<A> {
    /// Makes a table without a name, without an allocation.
    pub fn new(alloc: A) -> Table<A>
        ensures { result ≡ [] }
    {
        Table {
            entries: Vec::new(alloc),
        }
    }

    /// Returns the id of a name, 1 to 255.
    pub fn id_of(&self, name: &[u8]) -> Option<u8>
        ensures value { result ≡ id_of_name name.now self.now }
        ensures above { IfSome result (λ id. 0 < id) }
    {
        let i = place_of(&self.entries, name)?;
        Some(self.entries[i].1)
    }

    /// Returns the ids under which the peer wants extensions.
    ///
    /// If it announced one id for both, that is only the id of `ut_metadata`.
    #[tactic(auto, unfolding(crate::specs::Tables::told_ids))]
    pub fn registered(&self) -> Registered
        ensures { result ≡ told_ids self.now }
    {
        let metadata = self.extension_of(b"ut_metadata");
        let donthave = self.extension_of(b"lt_donthave");
        Registered::preferring_metadata(metadata, donthave)
    }

    fn extension_of(&self, name: &[u8]) -> Option<ExtId>
        ensures { result ≡ id_of_name name.now self.now }
    {
        match self.id_of(name) {
            Some(id) => ExtId::new(id),
            None => None,
        }
    }

    /// Copies the table.
    ///
    /// # Errors
    /// `AllocError` when out of memory.
    pub fn copy(&self) -> Result<Table<A>, AllocError>
        ensures { IfOk result (λ t. t ≡ self.now) }
    {
        let entries = copied(&self.entries)?;
        Ok(Table { entries })
    }

    /// Takes an id for a name.
    fn enter(&mut self, name: &[u8], id: u8) -> Result<(), AllocError>
        ensures ok { OnOk result (self.new ≡ entered name.now id self.old) }
    {
        enter(&mut self.entries, name, id)
    }

    /// Returns the names.
    fn names(&self) -> Result<BTreeSet<&[u8], A>, AllocError>
        ensures { IfOk result (λ names. HasNames (names_of names) self.now) }
    {
        let mut names = BTreeSet::new(*self.entries.allocator());
        for (name, _) in &self.entries {
            add_name(&mut names, name.as_slice())?;
        }
        Ok(names)
    }

    /// Takes an id for a name, and keeps the set of names.
    fn enter_known<'a>(
        &mut self,
        names: &mut BTreeSet<&'a [u8], A>,
        name: &'a [u8],
        id: u8,
    ) -> Result<(), AllocError>
        requires { HasNames (names_of names.old) self.old }
        ensures ok { OnOk result (self.new ≡ entered name.now id self.old) }
        ensures names { OnOk result (HasNames (names_of names.new) self.new) }
    {
        if !names.contains(name) {
            if id == 0 {
                return Ok(());
            }
            if self.entries.len() >= MAX_NAMES {
                return Ok(());
            }
        }
        self.enter(name, id)?;
        add_name(names, name)?;
        Ok(())
    }

    /// Takes ids for names.
    ///
    /// With the set of the table's names most names of a long `m`, which it doesn't have and has no room for, cost no search.
    fn enter_all<'a>(
        &mut self,
        names: &mut BTreeSet<&'a [u8], A>,
        told: &[(&'a [u8], u8)],
    ) -> Result<(), AllocError>
        requires { HasNames (names_of names.old) self.old }
        ensures { OnOk result (self.new ≡ entered_all (entries_of told.now) self.old) }
    {
        for (name, id) in told {
            self.enter_known(names, name, *id)?;
        }
        Ok(())
    }

    /// Returns what the table is after it took ids for names.
    fn after(&self, told: &[(&[u8], u8)]) -> Result<Table<A>, AllocError>
        ensures { IfOk result (λ t. t ≡ entered_all (entries_of told.now) self.now) }
    {
        let mut next = self.copy()?;
        let mut names = self.names()?;
        next.enter_all(&mut names, told)?;
        Ok(next)
    }

    /// Applies the pairs of `m` in an extended handshake's dictionary, in order.
    ///
    /// See BEP 10. Nothing changes if `m` is no dictionary. Of several pairs with one name the first counts. A pair with a
    /// name of more than 255 bytes, or with a value that is no integer from 0 to 255, does nothing. The value 0 removes the
    /// name. Another value replaces the name's id, or adds the name if the table has fewer than 256 names.
    ///
    /// # Errors
    /// `AllocError` when out of memory; the table is then unchanged.
    pub fn apply(&mut self, dict: &Value) -> Result<(), AllocError>
        ensures ok { OnOk result (self.new ≡ applied (tree_of dict.now) self.old) }
        ensures table { IsTable self.new }
        ensures memory { OnErr result (self.new ≡ self.old) }
    {
        let update = self.prepare_told(dict)?;
        self.update(update);
        Ok(())
    }

    /// Applies the pairs of `m` in an extended handshake's dictionary, in order.
    ///
    /// It does what [`Table::apply`] does with the dictionary as a value.
    ///
    /// # Errors
    /// `AllocError` when out of memory; the table is then unchanged.
    pub fn apply_ref(&mut self, dict: &DictRef) -> Result<(), AllocError>
        ensures ok { OnOk result (self.new ≡ applied (dictionary dict.now.tree.0) self.old) }
        ensures table { IsTable self.new }
        ensures memory { OnErr result (self.new ≡ self.old) }
    {
        let update = self.prepare_told(*dict)?;
        self.update(update);
        Ok(())
    }

    /// Makes the change that takes ids for names.
    fn change_by(&self, told: &[(&[u8], u8)]) -> Result<Change<A>, AllocError>
        ensures { IfOk result (λ change. IsChange self.now (entered_all (entries_of told.now) self.now) change) }
    {
        if told.len() > FEW {
            return Ok(Change::Replace(self.after(told)?));
        }
        change_few(&self.entries, told)
    }

    /// Prepares the change that a dictionary announces.
    fn prepare_told<'a, D: Dict<'a>>(&self, dict: D) -> Result<Update<A>, AllocError>
        ensures update { IfOk result (λ u. IsUpdate self.now (applied (D.tree dict) self.now) u) }
        ensures table { IsTable self.now }
    {
        let told = told_of(*self.entries.allocator(), dict)?;
        let change = self.change_by(&told)?;
        Ok(Update { change })
    }

    /// Makes the change that [`Table::apply_ref`] makes, without making it yet.
    ///
    /// All memory is allocated here, so that a caller can allocate more before anything changes.
    ///
    /// # Errors
    /// `AllocError` when out of memory.
    pub fn prepare(&self, dict: &DictRef) -> Result<Update<A>, AllocError>
        ensures { IfOk result (λ u. IsUpdate self.now (applied (dictionary dict.now.tree.0) self.now) u) }
    {
        self.prepare_told(*dict)
    }

    /// Makes a change that was prepared for this table as it is. It neither allocates nor fails.
    pub fn update(&mut self, update: Update<A>)
        requires { (next : Entries) × IsUpdate self.old next update }
        ensures { (next : Entries) → IsUpdate self.old next update → self.new ≡ next }
    {
        match update.change {
            Change::Renumber(places) => set_ids(&mut self.entries, &places),
            Change::Enter { copies, room } => enter_in_room(&mut self.entries, copies, room),
            Change::Replace(table) => *self = table,
        }
    }
}
