// The lock and its seats.
ghost use Rattle.std.specs.Prelude.{◌≡◌, ◌<◌, ◌≤◌, [], true, false, length, MatchResult, ◌+◌, Some, IfSome, IfNone};
ghost use Rattle.turn_lock.specs.Places.{IsSeatOf, first_seat, sees, draws, drawn_seat, takes_in, IsLater, GoesOn, AllJoined, IsWhole};

use crate::backoff::Backoff;
use crate::rule::{Draw, Law, Look, Release, Take, Try, View};
use crate::turned::Turned;
use atomic_table::{Refused, Table};
use std::alloc::Global;
use std::marker::Model;
use std::snapshot::Snapshot;
use std::sync::Wait;

/// How often the sleep of a thread that waits for its turn is doubled: a turn is short, and what the thread holds may be waited for.
const DOUBLINGS: u32 = 1;

/// A value that up to 16 threads take in turns, and whose history each of them knows as far as it has seen it.
///
/// Contracts see the lock as the problem and the budget of its value, which never change. Nothing is said of who gets the turn,
/// or that a thread gets it: only what it finds then.
pub struct Turns<T: Turned> {
    table: Table<Option<T>, View<T::Problem, T::Entry>, Snapshot<T>, Law<T>, Global>,
}

impl<T: Turned> Model for Turns<T> {
    ghost use Rattle.std.specs.Prelude.{◌≡◌};
    ghost use Rattle.turn_lock.specs.Places.{Locked};

    ghost Value = { Locked T.Problem };

    ghost view = { λ t. record { lock = t.table.shared.table_id; problem = T.problem t.table.shared.key.value; budget = T.budget t.table.shared.key.value } };

    ghost invariant = { λ t. (t.table.shared.table_id.words ≡ 1) × (t.table.shared.table_id.slots ≡ 1) };
}

/// A place at a lock, for one worker.
///
/// Contracts see it as what it knows: its worker's number, the entries that it has seen, whether it has the turn; the first seat
/// also knows how many numbers were drawn, and the seats that it took in.
#[derive(Drop)]
pub struct Seat<T: Turned> {
    place: atomic_table::Seat<Option<T>, View<T::Problem, T::Entry>>,
    worker: u8,
    seen: u64,
    drawn: u8,
    // whether it had to rest before its last turn
    waited: bool,
}

impl<T: Turned> Model for Seat<T> {
    ghost use Rattle.turn_lock.specs.Places.{Sitting, IsPlace};

    ghost Value = { Sitting T.Problem T.Entry };

    ghost view = { λ s. record { lock = s.place.table_id; view = s.place.me.0 } };

    ghost invariant = { λ s. IsPlace s.place.me s.worker s.seen s.drawn };
}

impl<T: Turned> Seat<T> {
    /// The number of its worker, from 1. It takes no memory.
    pub fn worker(&self) -> u8
        ensures number { result ≡ self.now.view.worker }
        ensures some { 0 < result }
    {
        self.worker
    }

    /// Whether it had to rest before its last turn, since another seat had the turn.
    pub fn has_waited(&self) -> bool {
        self.waited
    }
}

impl<T: Turned> Turns<T> {
    /// A lock over a value without entries, and its first seat, of worker 1.
    ///
    /// # Errors
    ///
    /// Want of memory; the value comes back unchanged.
    pub fn new(alloc: Global, value: T) -> Result<(Turns<T>, Seat<T>), T>
        requires { T.entries value ≡ [] }
        ensures { MatchResult result
            (λ made. (made.0.problem ≡ T.problem value) × (made.0.budget ≡ T.budget value) × (made.1 ≡ first_seat made.0))
            (λ back. back ≡ value) }
    {
        let key = Snapshot::of(&value);
        let Ok(mut slots) = Vec::with_capacity(alloc, 1) else {
            return Err(value);
        };
        slots.push_reserved(Some(value));
        match Table::new(alloc, &[0], slots, &key) {
            Ok((table, place)) => Ok((
                Turns { table },
                Seat {
                    place,
                    worker: 1,
                    seen: 0,
                    drawn: 1,
                    waited: false,
                },
            )),
            Err(Refused { mut slots }) => {
                let value = slots.pop().unwrap().unwrap();
                slots.destroy_empty();
                Err(value)
            }
        }
    }

    /// Waits for the turn, and takes the value: its entries begin with what the seat has seen, and the others that followed are
    /// not of this worker. It takes no memory.
    pub fn enter<R: Wait>(&self, rt: &R, seat: &mut Seat<T>) -> T
        requires lock { IsSeatOf self.now seat.old }
        requires rests { seat.old.view.holds ≡ false }
        ensures fits { (T.problem result ≡ self.now.problem) × (T.budget result ≡ self.now.budget) }
        ensures later { IsLater T.worker seat.old (T.entries result) }
        ensures seat { seat.new ≡ sees seat.old (T.entries result) true }
    {
        let mut backoff = Backoff::new(DOUBLINGS);
        seat.waited = false;
        for _ in rt.forever() {
            if let Some(value) = self.try_enter(seat) {
                return value;
            }
            seat.waited = true;
            backoff.rest(rt);
        }
        unreachable!()
    }

    /// One try for the turn.
    fn try_enter(&self, seat: &mut Seat<T>) -> Option<T>
        requires lock { IsSeatOf self.now seat.old }
        requires rests { seat.old.view.holds ≡ false }
        ensures fits { IfSome result (λ x. (T.problem x ≡ self.now.problem) × (T.budget x ≡ self.now.budget)) }
        ensures later { IfSome result (λ x. IsLater T.worker seat.old (T.entries x)) }
        ensures seat { IfSome result (λ x. seat.new ≡ sees seat.old (T.entries x) true) }
        ensures none { IfNone result (seat.new ≡ seat.old) }
    {
        let shared = &self.table.shared;
        let free = shared.peek(0);
        if free % 2 != 0 {
            return None;
        }
        let found = shared.compare_exchange::<Try<T>>(&mut seat.place, 0, free, free + 1);
        if found != free {
            return None;
        }
        seat.seen = free / 2;
        shared.exchange(&mut seat.place, 0, None)
    }

    /// Puts the value back, to which entries of this worker were added, and ends the turn. It takes no memory.
    pub fn leave(&self, seat: &mut Seat<T>, value: T)
        requires lock { IsSeatOf self.now seat.old }
        requires turn { seat.old.view.holds ≡ true }
        requires fits { (T.problem value ≡ self.now.problem) × (T.budget value ≡ self.now.budget) }
        requires mine { GoesOn T.worker seat.old (T.entries value) }
        ensures seat { seat.new ≡ sees seat.old (T.entries value) false }
    {
        let shared = &self.table.shared;
        let count = value.count();
        let away = shared.exchange(&mut seat.place, 0, Some(value));
        let None = away else {
            unreachable!();
        };
        shared.store::<Release<T>>(&mut seat.place, 0, 2 * count);
        seat.seen = count;
    }

    /// How many entries the history has now, by one load; never fewer than the seat had seen. It takes no memory.
    pub fn seen(&self, seat: &mut Seat<T>) -> u64
        requires lock { IsSeatOf self.now seat.old }
        ensures later { IsLater T.worker seat.old seat.new.view.seen }
        ensures seat { seat.new ≡ sees seat.old seat.new.view.seen seat.old.view.holds }
        ensures count { result ≡ length seat.new.view.seen }
        ensures least { length seat.old.view.seen ≤ result }
    {
        let found = self.table.shared.load::<Look<T>>(&mut seat.place, 0);
        seat.seen = found / 2;
        seat.seen
    }

    /// The seat of the next worker, by the first seat alone. It takes no memory.
    pub fn split(&self, seat: &mut Seat<T>) -> Seat<T>
        requires lock { IsSeatOf self.now seat.old }
        requires first { seat.old.view.worker ≡ 1 }
        requires room { seat.old.view.drawn < 16 }
        ensures first { seat.new ≡ draws seat.old }
        ensures next { result ≡ drawn_seat seat.old }
    {
        let place = self.table.shared.split_seat::<Draw>(&mut seat.place);
        seat.drawn += 1;
        Seat {
            place,
            worker: seat.drawn,
            seen: seat.seen,
            drawn: 0,
            waited: false,
        }
    }

    /// Takes a seat in, by the first seat alone: what it had seen is kept. It takes no memory.
    pub fn join(&self, seat: &mut Seat<T>, other: Seat<T>)
        requires lock { IsSeatOf self.now seat.old }
        requires first { seat.old.view.worker ≡ 1 }
        requires other { IsSeatOf self.now other }
        requires rests { other.view.holds ≡ false }
        ensures first { seat.new ≡ takes_in seat.old other }
    {
        let Seat { place, .. } = other;
        self.table.shared.join_seat::<Take>(&mut seat.place, place);
    }

    /// The value, once every other seat was taken in: one history, in which each worker's entries stand once each and in order.
    /// It takes no memory.
    pub fn close(self, seat: Seat<T>) -> T
        requires lock { IsSeatOf self seat }
        requires first { seat.view.worker ≡ 1 }
        requires all { AllJoined seat }
        requires rests { seat.view.holds ≡ false }
        ensures fits { (T.problem result ≡ self.problem) × (T.budget result ≡ self.budget) }
        ensures whole { IsWhole T.worker seat (T.entries result) }
    {
        let Turns { table } = self;
        let Seat { place, .. } = seat;
        let mut closed = table.close_with(place);
        let value = closed.take(0).unwrap();
        closed.free();
        value
    }
}
