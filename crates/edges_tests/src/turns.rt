// A lock over a list of marks.
ghost use Rattle.std.specs.Prelude.{◌≡◌, ◌≤◌, ◌++◌, ◌∷◌, [], OnOk, OnErr};

use std::alloc::{AllocError, Global};
use std::marker::Model;
use turn_lock::{Backoff, Counted, Turned, Turns};

/// Marks of workers, the earliest first.
#[derive(Drop)]
struct Marks {
    marks: Vec<u8>,
}

/// The most marks.
const MOST: usize = 16;

impl Model for Marks {
    ghost use Rattle.std.specs.Prelude.{List, ℕ, length, ◌≤◌};

    ghost Value = { List ℕ };

    ghost view = { λ m. m.marks.items };

    ghost invariant = { λ m. length m.marks.items ≤ 16 };
}

impl Marks {
    fn new(alloc: Global) -> Marks
        ensures { result ≡ [] }
    {
        Marks {
            marks: Vec::new(alloc),
        }
    }

    /// Adds a mark, where there is room.
    fn add(&mut self, mark: u8) -> Result<(), AllocError>
        ensures ok { OnOk result (self.new ≡ self.old ++ mark ∷ []) }
        ensures err { OnErr result (self.new ≡ self.old) }
    {
        if self.marks.len() >= MOST {
            return Err(AllocError);
        }
        self.marks.push(mark)?;
        Ok(())
    }

    fn marks(&self) -> &[u8]
        ensures { result.now ≡ self.now }
    {
        &self.marks
    }
}

impl Counted for Marks {
    ghost use Rattle.std.specs.Prelude.{ℕ, List};

    type Entry = u8;

    ghost entries = { λ m. m };

    fn count(&self) -> u64 {
        self.marks.len() as u64
    }
}

impl Turned for Marks {
    type Problem = u8;

    ghost problem = { λ m. 7 };

    ghost budget = { λ m. 0 };

    ghost worker = { λ mark. mark };
}

#[test]
fn each_seat_sees_what_others_entered(rt: HostRuntime) {
    let alloc = rt.alloc();
    let Ok((turns, mut first)) = Turns::new(alloc, Marks::new(alloc)) else {
        panic!(rt; "memory");
    };
    let mut second = turns.split(&mut first);
    assert_eq!(rt; first.worker(), 1);
    assert_eq!(rt; second.worker(), 2);
    let mut marks = turns.enter(&rt, &mut second);
    marks.add(2).expect(&rt, "memory");
    turns.leave(&mut second, marks);
    assert_eq!(rt; turns.seen(&mut first), 1);
    let mut marks = turns.enter(&rt, &mut first);
    marks.add(1).expect(&rt, "memory");
    turns.leave(&mut first, marks);
    turns.join(&mut first, second);
    let marks = turns.close(first);
    assert!(rt; marks.marks() == [2, 1].as_slice());
}

#[test]
fn a_backoff_rests_again_and_again(rt: HostRuntime) {
    let mut backoff = Backoff::new(2);
    for _ in 0..24u32 {
        backoff.rest(&rt);
    }
    backoff.reset();
    backoff.rest(&rt);
}
