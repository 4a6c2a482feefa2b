// A book with its marks and the plan of its growth: what all legs go by.
ghost use Rattle.std.specs.Prelude.{ℕ, ◌+◌, ◌*◌, ◌≤◌, length};
ghost use Rattle.std.proofs.Props.{props};
ghost use Rattle.book_format.specs.Format.{links, legs};
ghost use Rattle.book_options.specs.Options.{OptionsIn};
ghost use Rattle.grow_state.specs.Held.{PlanIn};

use crate::Plan;
use book_format::ReadableBook;

// A book that was read, a mark for each link, odd for a link that leads to a destination, and the plan, which holds of
// the book where reals has the room that is published for it.
#[derive(Clone, Copy)]
pub struct PlannedBook<'a> {
    pub book: &'a ReadableBook<'a>,
    pub marks: &'a [u32],
    pub plan: Plan,
    ghost planned: { PlanIn book.now plan (legs book.now * 3 + 4) } by { Prim.hlevel props },
    ghost options: { OptionsIn book.now marks.now } by { Prim.hlevel props },
    ghost marked: { links book.now ≤ length marks.now },
}
