// The tracker and the sessions in their slots, as one list of connections.
ghost use Rattle.std.specs.Prelude.{◌≡◌, ◌<◌, ◌+◌, None, Some, [], length, option_copied, option_map, option_and_then, is_some, count_by, IfOk, IsSome, true, false};
ghost use Rattle.std.specs.Borrow.{sem};
ghost use Rattle.std.specs.Option.{option_copied_mut};
ghost use Rattle.gate_base.specs.Prelude.{IsMoment};
ghost use Rattle.tcp_tracker.specs.Lends.{lends_session};
ghost use Rattle.slab.specs.Slab.{get, slab_len, Updates};
ghost use Rattle.tcp_segments.specs.Prelude.{flags_of};
ghost use Rattle.tcp_tracker.specs.Connections.{connection_of, place_of, timeout_of, noted, without, live, is_tracked};
ghost use Rattle.tcp_tracker.specs.declared.tracker.TheConstants.{MOST_CONNECTIONS};

use crate::{ConnKey, Tracker};
use expiring_table::Seed;
use gate_base::{Moment, OutOfMemory, Side};
use slab::Slab;
use std::alloc::Global;
use std::marker::Model;

/// The most sessions that live at once.
pub const MOST_SESSIONS: usize = 4_096;

/// The connections between the two realms, each with its session, if it is tracked.
pub struct SessionTable<X> {
    tracker: Tracker,
    sessions: Slab<X>,
}

// By a call of its own, since a drop that is written out wherever it happens is slow to prove.
impl<X: Drop> Drop for SessionTable<X> {
    fn drop(self) {
        let Self { tracker, sessions } = self;
    }
}

impl<X> Model for SessionTable<X> {
    ghost use Rattle.std.specs.Prelude.{List};
    ghost use Rattle.tcp_tracker.specs.declared.connection.Connection.{Connection};
    ghost use Rattle.tcp_tracker.specs.Inside.Joined.{joined, IsJoined};

    ghost Value = { List (Connection X) };

    ghost view = { λ table. joined table.sessions table.tracker };

    ghost invariant = { λ table. IsJoined table.tracker table.sessions };
}

impl<X> SessionTable<X> {
    /// No connection; the error is that there is too little memory. The seed spreads the names of the connections: what the table
    /// answers doesn't depend on it.
    pub fn new(alloc: Global, seed: Seed) -> Result<SessionTable<X>, OutOfMemory>
        ensures { IfOk result (λ table. table ≡ []) }
    {
        Ok(SessionTable {
            tracker: Tracker::new(alloc, seed)?,
            sessions: Slab::with_capacity(alloc, MOST_SESSIONS)?,
        })
    }

    /// Spreads the names by another seed, at the cost of a look at all connections.
    pub fn reseed(&mut self, seed: Seed)
        ensures { self.new ≡ self.old }
    {
        self.tracker.reseed(seed);
    }

    /// The number of connections.
    pub fn len(&self) -> usize
        ensures { result ≡ length self.now }
    {
        self.tracker.len()
    }

    /// The session of the connection with this name, if there is such a connection, and it has one.
    pub fn find(&self, key: &ConnKey) -> Option<Option<&X>>
        ensures { option_map option_copied result
            ≡ option_map (λ c. c.session) (connection_of key.now self.now) }
    {
        match self.tracker.find(key) {
            Some(connection) => Some(session_in(&self.sessions, connection.session)),
            None => None,
        }
    }

    /// The session of the connection with this name.
    pub fn session(&self, key: &ConnKey) -> Option<&X>
        ensures { option_copied result
            ≡ option_and_then (λ c. c.session) (connection_of key.now self.now) }
    {
        session_in(&self.sessions, slot_of(&self.tracker, key))
    }

    /// Whether a connection has this name.
    pub fn contains(&self, key: &ConnKey) -> bool
        ensures { result ≡ is_some (connection_of key.now self.now) }
    {
        self.tracker.find(key).is_some()
    }

    /// The number of sessions.
    pub fn sessions(&self) -> usize
        ensures { result ≡ count_by is_tracked self.now }
    {
        self.sessions.len()
    }

    /// The session of the connection with this name, to be changed.
    pub fn session_mut(&mut self, key: &ConnKey) -> Option<&mut X>
        ensures* writes_back { sem 𝓛 (lends_session X.row self.entry key.now result) }
        ensures value { option_copied_mut result
            ≡ option_and_then (λ c. c.session) (connection_of key.now self.old) }
    {
        match slot_of(&self.tracker, key) {
            Some(slot) => self.sessions.get_mut(slot),
            None => None,
        }
    }

    /// How long the connection with this name lives on after a segment with these flags passed from a side, in nanoseconds.
    pub fn timeout_of(&self, key: &ConnKey, from: Side, flags: u8) -> u64
        ensures { result ≡ timeout_of self.now key.now from flags }
    {
        self.tracker.timeout_of(key, from, flags)
    }

    /// A segment with these flags passed from a side at a moment, and begins no session. There are fewer than 65,536
    /// connections, or the segment's is there. It answers how long the connection lives on, as `timeout_of` does.
    pub fn note(&mut self, key: ConnKey, from: Side, flags: u8, now: Moment) -> u64
        requires room { place_of key self.old ≡ None → length self.old < MOST_CONNECTIONS }
        requires moment { IsMoment now.0 }
        ensures noted { self.new ≡ noted self.old key from flags None now }
        ensures timeout { result ≡ timeout_of self.old key from flags }
    {
        self.tracker.note(key, from, flags, None, now)
    }

    /// The first segment of a connection that is tracked passed from a side at a moment: it makes the connection.
    pub fn open(&mut self, key: ConnKey, from: Side, flags: u8, session: X, now: Moment)
        requires absent { connection_of key self.old ≡ None }
        requires flags { (flags_of flags).reset ≡ false }
        requires room { length self.old < MOST_CONNECTIONS }
        requires sessions { count_by is_tracked self.old < MOST_SESSIONS }
        requires moment { IsMoment now.0 }
        ensures { self.new ≡ noted self.old key from flags (Some session) now }
    {
        let slot = self.sessions.insert_reserved(session);
        self.tracker.note(key, from, flags, Some(slot), now);
    }
}

impl<X: Drop> SessionTable<X> {
    /// Drops the connection with this name, and its session.
    pub fn remove(&mut self, key: &ConnKey)
        ensures { self.new ≡ without self.old key.now }
    {
        match slot_of(&self.tracker, key) {
            Some(slot) => {
                clear(&mut self.sessions, slot);
                self.tracker.remove(key);
            }
            None => self.tracker.remove(key),
        }
    }
}

impl<X: Drop> SessionTable<X> {
    /// Drops the connections that don't live, and their sessions.
    pub fn expire(&mut self, now: Moment)
        ensures { self.new ≡ live now self.old }
    {
        while self.drop_ended(now) {}
    }

    // Drops a connection that doesn't live, and its session; false where all live.
    fn drop_ended(&mut self, now: Moment) -> bool
        ensures live { live now self.new ≡ live now self.old }
        ensures fewer { result ≡ true → length self.new < length self.old }
        ensures all { result ≡ false → live now self.new ≡ self.new }
    {
        let Some(ended) = self.tracker.next_ended(now) else {
            return false;
        };
        if let Some(slot) = ended.session {
            clear(&mut self.sessions, slot);
        }
        true
    }
}

// The value under a key goes. Out of line, since it is moved out, and is large.
#[inline(never)]
fn clear<X: Drop>(slots: &mut Slab<X>, slot: usize)
    requires { IsSome (get slots.old slot) }
    ensures updates { Updates slots.old slots.new slot None }
    ensures len { slab_len slots.new + 1 ≡ slab_len slots.old }
    ensures capacity { slots.new.capacity ≡ slots.old.capacity }
{
    slots.try_remove(slot);
}

// The session in a slot, if one is given.
fn session_in<X>(sessions: &Slab<X>, slot: Option<usize>) -> Option<&X>
    ensures { option_copied result ≡ option_and_then (get sessions.now) slot }
{
    match slot {
        Some(slot) => sessions.get(slot),
        None => None,
    }
}

// The slot of the session of the connection with this name.
fn slot_of(tracker: &Tracker, key: &ConnKey) -> Option<usize>
    ensures { result
        ≡ option_and_then (λ c. c.session) (connection_of key.now tracker.now) }
{
    match tracker.find(key) {
        Some(connection) => connection.session,
        None => None,
    }
}
