// A run's path in the work space, the movement of a leg along it, and row 11 for what is left of it. Contracts: specs/.
#![tactic(auto)]

ghost use Rattle.std.specs.Prelude.{◌≡◌, ◌+◌, ◌*◌, ◌-◌, ◌≤◌, ◌<◌, length, get_or};
ghost use Rattle.std.specs.Float.{binary64, nan};
ghost use Rattle.std.specs.Float.Ieee.{of_bits};
ghost use Rattle.book_format.specs.Format.{links, samples_at_of};
ghost use Rattle.event_walk.specs.Walk.{some_bad};
ghost use Rattle.grow_path.specs.Kept.{point_added, link_added, movement_on, movement_at, event_in};

use book_format::{Book, ReadableBook};
use book_legs::TakenLeg;
use event_walk::{Movement, PassedPoint, PassedPoints};
use net_node::{LinkEvent, TimedEvent};

// The first point of every path is at 0.
pub fn start_path(reals: &mut [f64])
    requires { 0 < length reals.old }
    ensures { get_or reals.new 0 nan ≡ of_bits binary64 0 }
{
    reals[0] = 0.0;
}

// Puts a link behind the `depth` links of a path: its name, and the point behind it. A link is named by the index of
// its row, and its bound is asked as a slice's is.
#[tactic(auto, using(book_format::proofs::Given::link_length_lem))]
pub fn extend_path(
    book: &ReadableBook,
    reals: &mut [f64],
    cells: &mut [u32],
    depth: usize,
    link_idx: u32,
)
    requires point_in_bounds { depth + 1 < length reals.old }
    requires cell_in_bounds { depth * 8 + 3 < length cells.old }
    requires link_idx_lt_links { link_idx < links book.now }
    ensures reals { reals.new ≡ point_added book.now reals.old depth link_idx }
    ensures cells { cells.new ≡ link_added cells.old depth link_idx }
{
    let link = book.valid().link_at(link_idx as usize);
    reals[depth + 1] = reals[depth] + link.length;
    cells[depth * 8 + 3] = link_idx;
}

// What the walk of a leg looks at, whose path has `depth` links, its own among them, where the samples begin there.
pub fn movement_at(samples_at: usize, leg: TakenLeg, depth: usize, length: f64) -> Movement
    requires first_le_end { leg.first ≤ leg.end }
    requires end_le_1000000 { leg.end ≤ 1000000 }
    requires samples_at_le_4000000 { samples_at ≤ 4000000 }
    requires depth_le_65535 { depth ≤ 65535 }
    ensures { result ≡ movement_at «samples_at» leg depth «length» }
{
    Movement {
        at: samples_at + leg.first * book_format::SAMPLE_WIDTH,
        samples: leg.end - leg.first,
        points: depth + 1,
        length,
    }
}

// The same in a book.
pub fn movement_of(book: &Book, leg: TakenLeg, depth: usize, length: f64) -> Movement
    requires first_le_end { leg.first ≤ leg.end }
    requires end_le_1000000 { leg.end ≤ 1000000 }
    requires samples_at_le_4000000 { samples_at_of book.now ≤ 4000000 }
    requires depth_le_65535 { depth ≤ 65535 }
    ensures { result ≡ movement_on book.now leg depth «length» }
{
    movement_at(book.samples_at(), leg, depth, length)
}

// Whether an event is bad among those that are still to come in a leg.
pub fn some_bad(mut events: PassedPoints) -> bool
    ensures { result ≡ some_bad events.entry }
{
    events.any(|event| event.is_bad())
}

// A point that is passed, as an event of the link that it names.
pub fn event_at(cells: &[u32], p: PassedPoint) -> TimedEvent
    requires { p.point * 8 + 3 < length cells.now }
    ensures { result ≡ event_in cells.now p }
{
    TimedEvent {
        time: p.time,
        offset: p.offset,
        speed: p.speed,
        link_event: LinkEvent {
            link_idx: cells[p.point * 8 + 3],
            est_type: p.est_type,
        },
    }
}
