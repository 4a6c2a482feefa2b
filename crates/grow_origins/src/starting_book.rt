// A planned book at the start of its growth.
ghost use Rattle.std.specs.Prelude.{◌≡◌, ℕ, ◌≤◌, length};
ghost use Rattle.std.proofs.Props.{props};
ghost use Rattle.book_legs.specs.Legs.{Started};
ghost use Rattle.book_options.specs.Options.{kept_origins, search_room};

use grow_state::PlannedBook;

// A planned book whose origins are yet to be inserted, and how many of them are kept. The marks have the starting legs
// by their links too, and the rows of the kept origins.
#[derive(Clone, Copy)]
pub struct StartingBook<'a> {
    pub planned: PlannedBook<'a>,
    pub kept: usize,
    ghost started: { Started planned.book.now planned.marks.now } by { Prim.hlevel props },
    ghost searched: { search_room planned.book.now ≤ length planned.marks.now },
    ghost kept_is: { kept ≡ length (kept_origins planned.book.now) },
}
