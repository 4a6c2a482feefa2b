// Where the runs that wait have their cells and reals.
ghost use Rattle.std.specs.Prelude.{◌+◌, ◌*◌, ◌≤◌};

// Where the nodes' units stand in the cells, behind the legs', and the pairs of reals in the reals, and how many legs
// and places there are. That both lie inside the slices stands in contracts, not here: the slices are lent to be
// written, and a struct that held them would be taken apart at each call that writes them.
#[derive(Clone, Copy)]
pub struct Rooms {
    pub nodes_at: usize,
    pub pairs_at: usize,
    pub legs: usize,
    pub places: usize,
    ghost legs_before: { (legs + 1) * 8 ≤ nodes_at },
}
