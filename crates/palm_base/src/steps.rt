// The counter of steps. It is there for contracts alone: nothing may depend on it when the program runs.
ghost use Rattle.std.specs.Prelude.{◌≡◌, ◌+◌, ◌<◌};

use std::marker::Model;
use std::sync::ledger::{Blank, Book, Ledger, Share};

/// A counter of the steps that a call takes over the tree's nodes, so that contracts can bound them. Contracts see
/// their number. It has no bytes at run time, and counting costs nothing.
#[derive(Drop)]
pub struct Steps<L: Ledger> {
    book: Book<L>,
    share: Share<L>,
}

impl<L: Ledger> Model for Steps<L> {
    ghost use Rattle.std.specs.Prelude.{ℕ, ◌<◌};

    ghost Value = { ℕ };

    ghost view = { λ a. a.book.total };

    ghost invariant = { λ a. 0 < a.share.parts };
}

impl<L: Ledger> Steps<L> {
    /// A counter that stands at 0. A function over any `L` makes one of its blank, and is called with `Brand`.
    pub fn new(blank: Blank) -> Steps<L>
        requires blank_name { blank.name ≡ L.name }
        requires blank_parts { blank.parts ≡ L.parts }
        requires blank { 0 < blank.parts }
        ensures { result ≡ 0 }
    {
        let (book, share) = blank.open::<L>();
        Steps { book, share }
    }

    /// Counts one step.
    pub fn tick(&mut self)
        ensures { self.new ≡ self.old + 1 }
    {
        self.book.add(&mut self.share, 1);
    }
}
