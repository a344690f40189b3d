// The rule of the table, and what each step of it tells.
use crate::turned::Turned;
use atomic_table::{Join, Play, Split, TableRule};
use std::collections::LinkedList;
use std::marker::PhantomData;
use std::snapshot::Snapshot;

/// A seat that was joined: its number, and what it had seen. No value of it is made.
pub struct Joined<E> {
    pub worker: u64,
    pub seen: LinkedList<E>,
}

/// What a seat knows. A spent one has the number 0. No value of it is made.
pub struct View<P, E> {
    pub problem: Option<P>,
    pub budget: u64,
    pub worker: u64,
    pub seen: LinkedList<E>,
    pub holds: bool,
    pub drawn: u64,
    pub joined: LinkedList<Joined<E>>,
}

/// The rule of a table with one word and one slot: the word is twice the number of entries while the value is at home, and
/// one more while a seat has the turn. No value of it is made.
pub struct Law<T> {
    of: PhantomData<T>,
}

impl<T: Turned> TableRule<Option<T>, View<T::Problem, T::Entry>, Snapshot<T>> for Law<T> {
    ghost use Rattle.turn_lock.specs.Turn.{Turning, first_view};

    ghost holds = { λ key s. Turning T.problem T.budget T.entries T.worker (T.problem key.value) (T.budget key.value) s };

    ghost first = { λ key. first_view (T.problem key.value) (T.budget key.value) };
}

/// Trying the word.
pub struct Try<T> {
    of: PhantomData<T>,
}

impl<T: Turned> Play<Option<T>, View<T::Problem, T::Entry>> for Try<T> {
    ghost use Rattle.turn_lock.specs.Turn.{tried};

    ghost then = { tried T.problem T.budget T.entries T.worker };
}

/// Releasing the word.
pub struct Release<T> {
    of: PhantomData<T>,
}

impl<T: Turned> Play<Option<T>, View<T::Problem, T::Entry>> for Release<T> {
    ghost use Rattle.turn_lock.specs.Turn.{released};

    ghost then = { released T.entries };
}

/// Loading the word.
pub struct Look<T> {
    of: PhantomData<T>,
}

impl<T: Turned> Play<Option<T>, View<T::Problem, T::Entry>> for Look<T> {
    ghost use Rattle.turn_lock.specs.Turn.{looked};

    ghost then = { looked T.worker };
}

/// Drawing a number.
pub struct Draw;

impl<P, E> Split<View<P, E>> for Draw {
    ghost use Rattle.turn_lock.specs.Turn.{drawing, drawn_view};

    ghost left = { drawing };

    ghost right = { drawn_view };
}

/// Taking a seat in.
pub struct Take;

impl<P, E> Join<View<P, E>> for Take {
    ghost use Rattle.turn_lock.specs.Turn.{taking, spent_view};

    ghost both = { taking };

    ghost spent = { spent_view };
}
