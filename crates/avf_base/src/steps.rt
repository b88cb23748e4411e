// Counters of work.
ghost use Rattle.std.specs.Prelude.{◌≡◌, ℕ, ◌+◌, ◌<◌};

use std::fs::Files;
use std::marker::Model;
use std::sync::ledger::{Blank, Book, Ledger, Share};

/// How often `tick` was called since the counter was made. A contract sees it as that number. It takes no bytes at run
/// time, and only `tick` changes it.
#[derive(Drop)]
pub struct Steps<L: Ledger> {
    book: Book<L>,
    share: Share<L>,
}

impl<L: Ledger> Model for Steps<L> {
    ghost Value = { ℕ };

    ghost view = { λ s. s.book.total };

    ghost invariant = { λ s. 0 < s.share.parts };
}

impl<L: Ledger> Steps<L> {
    /// Counts one more.
    pub fn tick(&mut self)
        ensures { self.new ≡ self.old + 1 }
    {
        self.book.add(&mut self.share, 1);
    }
}

/// A counter at 0. It asks for the runtime, so that only `main` and tests can make one.
pub fn counter<R: Files, L: Ledger>(_rt: &R, blank: Blank) -> Steps<L>
    requires name { blank.name ≡ L.name }
    requires parts { blank.parts ≡ L.parts }
    requires some { 0 < L.parts }
    ensures { result ≡ 0 }
{
    let (book, share) = blank.open::<L>();
    Steps { book, share }
}
