// What a value must tell, so that a lock can speak of its history.
ghost use Rattle.std.specs.Prelude.{◌≡◌, ℕ, ◌^◌, ◌<◌, List, length};

/// A value with entries, which can be counted.
pub trait Counted {
    /// What its entries are.
    type Entry;

    /// Its entries, the earliest first.
    ghost entries: { Self → List Self.Entry };

    /// How many entries it has: the lock's word is made of it, so there are fewer than 2^62.
    fn count(&self) -> u64
        ensures count { result ≡ length (entries self.now) }
        ensures few { length (entries self.now) < 2 ^ 62 };
}

/// A value that a turn lock can keep.
pub trait Turned: Counted {
    /// What its problem is.
    type Problem;

    /// The problem that it is for.
    ghost problem: { Self → Self.Problem };

    /// The budget that it is for.
    ghost budget: { Self → ℕ };

    /// The number of the worker that made an entry, or 0 where it is nobody's.
    ghost worker: { Self.Entry → ℕ };
}

impl<T: Counted> Counted for Box<T> {
    type Entry = T::Entry;

    ghost entries = { λ b. T.entries b.value };

    fn count(&self) -> u64 {
        (**self).count()
    }
}

impl<T: Turned> Turned for Box<T> {
    type Problem = T::Problem;

    ghost problem = { λ b. T.problem b.value };

    ghost budget = { λ b. T.budget b.value };

    ghost worker = { T.worker };
}
