//! The connections that aren't over, by their ends.
ghost use Rattle.std.specs.Prelude.{◌≡◌, ◌≤◌, ◌-◌, ◌^◌, [], ◌∷◌, ◌++◌, length, None, Some, true, option_copied, IfOk, OnOk, OnErr};
ghost use Rattle.std.specs.List.Sorted.{IsPermutation};
ghost use Rattle.std.specs.Option.{option_to_list};
ghost use Rattle.lru.specs.LruCache.{lru_cache};
ghost use Rattle.std.specs.Map.{lookup, remove_entry};
ghost use Rattle.std.specs.List.{cons_option};
ghost use Rattle.bt_capture.specs.Tables.{same_pair, IsApart, IsQuiet};

use crate::connection::Connection;
use crate::pair::Pair;
use lru::LruCache;
use std::alloc::{AllocError, Global};
use std::hash::RandomState;
use std::marker::Model;

/// The connections that aren't over.
///
/// The one that was put last is found without a search. Of the others those of which no byte came are the oldest ones.
#[derive(Drop)]
pub struct Table {
    last: Option<(Pair, Box<Connection>)>,
    /// Those of which a byte came, in the order of their last segments.
    others: LruCache<Pair, Box<Connection>, RandomState>,
    /// Those of which none came, in that order.
    silent: LruCache<Pair, Box<Connection>, RandomState>,
}

impl Model for Table {
    ghost use Rattle.std.specs.Prelude.{◌≡◌, ◌-◌, ◌^◌, ◌++◌, List};
    ghost use Rattle.std.specs.List.{cons_option};
    ghost use Rattle.bt_capture.specs.Tables.{IsApart, Held};
    ghost use Rattle.bt_capture.specs.declared.pair.Pair.{Pair};
    ghost use Rattle.std.specs.Coded.{codes};
    ghost use Rattle.bt_capture.specs.contracts.connection.Connection as connection;

    ghost Value = { List (Pair × Held) };

    ghost coded = { Prim.hlevel (codes, connection.the_row.coded) };

    ghost view = { λ t. cons_option t.last (t.others.entries ++ t.silent.entries) };

    ghost invariant = { λ t. IsApart (cons_option t.last (t.others.entries ++ t.silent.entries)) × (t.others.cap ≡ 2 ^ 64 - 1) × (t.silent.cap ≡ 2 ^ 64 - 1) };
}

/// Puts a connection among others, of which none has the same ends.
fn keep(
    others: &mut LruCache<Pair, Box<Connection>, RandomState>,
    pair: Pair,
    connection: Box<Connection>,
) -> Result<(), AllocError>
    requires room { others.old.cap ≡ 2 ^ 64 - 1 }
    requires absent { lookup (same_pair pair) others.old.entries ≡ None }
    ensures kept { OnOk result (others.new ≡ lru_cache ((pair, connection) ∷ others.old.entries) others.old.cap) }
    ensures same { OnErr result (others.new ≡ others.old) }
{
    let _few = others.len();
    match others.push(pair, connection) {
        Ok(_) => Ok(()),
        Err(_) => Err(AllocError),
    }
}

/// Puts a connection among those of which a byte came, or among the silent ones; none of them has the same ends.
fn keep_either(
    others: &mut LruCache<Pair, Box<Connection>, RandomState>,
    silent: &mut LruCache<Pair, Box<Connection>, RandomState>,
    pair: Pair,
    connection: Box<Connection>,
) -> Result<(), AllocError>
    requires room { others.old.cap ≡ 2 ^ 64 - 1 }
    requires silent_room { silent.old.cap ≡ 2 ^ 64 - 1 }
    requires absent { lookup (same_pair pair) (others.old.entries ++ silent.old.entries) ≡ None }
    ensures kept { OnOk result (IsPermutation ((pair, connection) ∷ (others.old.entries ++ silent.old.entries)) (others.new.entries ++ silent.new.entries)) }
    ensures same { OnErr result ((others.new ≡ others.old) × (silent.new ≡ silent.old)) }
    ensures cap { others.new.cap ≡ others.old.cap }
    ensures silent_cap { silent.new.cap ≡ silent.old.cap }
{
    if connection.has_payload {
        keep(others, pair, connection)
    } else {
        keep(silent, pair, connection)
    }
}

/// Returns the connection of these ends in one of both, if there is one.
fn find_either<'a>(
    others: &'a LruCache<Pair, Box<Connection>, RandomState>,
    silent: &'a LruCache<Pair, Box<Connection>, RandomState>,
    pair: Pair,
) -> Option<&'a Box<Connection>>
    ensures { option_copied result ≡ lookup (same_pair pair) (others.now.entries ++ silent.now.entries) }
{
    match others.peek(&pair) {
        Some(connection) => Some(connection),
        None => silent.peek(&pair),
    }
}

/// Takes the connection of these ends out of both, if there is one.
fn take_either(
    others: &mut LruCache<Pair, Box<Connection>, RandomState>,
    silent: &mut LruCache<Pair, Box<Connection>, RandomState>,
    pair: Pair,
) -> Option<Box<Connection>>
    ensures found { result ≡ lookup (same_pair pair) (others.old.entries ++ silent.old.entries) }
    ensures rest { others.new.entries ++ silent.new.entries ≡ remove_entry (same_pair pair) (others.old.entries ++ silent.old.entries) }
    ensures cap { others.new.cap ≡ others.old.cap }
    ensures silent_cap { silent.new.cap ≡ silent.old.cap }
{
    match others.pop(&pair) {
        Some(connection) => Some(connection),
        None => silent.pop(&pair),
    }
}

/// Takes out the silent connection that was put least recently, or the other one if none is silent.
fn take_least(
    others: &mut LruCache<Pair, Box<Connection>, RandomState>,
    silent: &mut LruCache<Pair, Box<Connection>, RandomState>,
) -> Option<(Pair, Box<Connection>)>
    ensures oldest { others.old.entries ++ silent.old.entries ≡ (others.new.entries ++ silent.new.entries) ++ option_to_list result }
    ensures empty { result ≡ None → others.old.entries ++ silent.old.entries ≡ [] }
    ensures cap { others.new.cap ≡ others.old.cap }
    ensures silent_cap { silent.new.cap ≡ silent.old.cap }
{
    match silent.pop_lru() {
        Some(oldest) => Some(oldest),
        None => others.pop_lru(),
    }
}

impl Table {
    /// Makes a table without a connection.
    ///
    /// `keys` aren't known to who makes the capture, so that no addresses can be chosen whose searches are long.
    ///
    /// # Errors
    /// `AllocError` when out of memory.
    pub fn new(alloc: Global, keys: RandomState) -> Result<Table, AllocError>
        ensures { IfOk result (λ t. t ≡ []) }
    {
        Ok(Table {
            last: None,
            others: LruCache::unbounded_with_hasher(alloc, keys)?,
            silent: LruCache::unbounded_with_hasher(alloc, keys)?,
        })
    }

    /// Takes out the connection of these ends, if there is one.
    pub fn take_out(&mut self, pair: Pair) -> Option<Box<Connection>>
        ensures found { result ≡ lookup (same_pair pair) self.old }
        ensures rest { self.new ≡ remove_entry (same_pair pair) self.old }
        ensures apart { IsApart self.old }
    {
        match self.last.take() {
            Some((last, connection)) => {
                if pair == last {
                    return Some(connection);
                }
                self.last = Some((last, connection));
                take_either(&mut self.others, &mut self.silent, pair)
            }
            None => take_either(&mut self.others, &mut self.silent, pair),
        }
    }

    /// Returns the connection of these ends, if there is one.
    fn find(&self, pair: Pair) -> Option<&Box<Connection>>
        ensures { option_copied result ≡ lookup (same_pair pair) self.now }
    {
        match &self.last {
            Some((last, connection)) if pair == *last => Some(connection),
            _ => find_either(&self.others, &self.silent, pair),
        }
    }

    /// Tells whether the connection of these ends, if it has ended, is over at this time.
    ///
    /// If memory ran out with it nobody knows whether it has.
    pub fn is_over(&self, pair: Pair, nanos: u64) -> Option<bool>
        ensures { result ≡ Some true → IsQuiet pair nanos self.now }
    {
        match self.find(pair) {
            Some(connection) if !connection.talk.is_lost() && connection.talk.has_ended() => {
                Some(connection.talk.is_over(nanos))
            }
            _ => None,
        }
    }

    /// Puts a connection into the table, which has none of the same ends.
    ///
    /// # Errors
    /// `AllocError` when out of memory.
    pub fn put(&mut self, pair: Pair, connection: Box<Connection>) -> Result<(), AllocError>
        requires { lookup (same_pair pair) self.old ≡ None }
        ensures put { OnOk result (IsPermutation ((pair, connection) ∷ self.old) self.new) }
        ensures apart { IsApart self.old }
    {
        match self.last.take() {
            Some((last, other)) => {
                keep_either(&mut self.others, &mut self.silent, last, other)?;
                self.last = Some((pair, connection));
                Ok(())
            }
            None => {
                self.last = Some((pair, connection));
                Ok(())
            }
        }
    }

    /// Takes out a connection: of those that aren't the last one the silent one that was put least recently, or else the other one.
    pub fn take_oldest(&mut self) -> Option<(Pair, Box<Connection>)>
        ensures oldest { self.old ≡ self.new ++ option_to_list result }
        ensures empty { result ≡ None → self.old ≡ [] }
        ensures apart { IsApart self.old }
    {
        match take_least(&mut self.others, &mut self.silent) {
            Some(oldest) => Some(oldest),
            None => self.last.take(),
        }
    }

    /// Returns how many connections it has.
    pub fn len(&self) -> usize
        ensures count { result ≡ length self.now }
        ensures apart { IsApart self.now }
    {
        let others = self.others.len() + self.silent.len();
        if self.last.is_some() {
            others + 1
        } else {
            others
        }
    }

    /// Returns how many silent connections it has, without the one that was put last.
    pub fn count_silent(&self) -> usize
        ensures { result ≤ length self.now }
    {
        self.silent.len()
    }
}
