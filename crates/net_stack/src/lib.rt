// The stack of a strand walk, which `net_strands` does: alternatives that are still to be walked, and nodes of which
// what they give is noted when all that they stacked is walked. And where a strand is left. Contracts:
// specs/Stack.antt, specs/Openings.antt.
#![tactic(auto)]

ghost use Rattle.std.specs.Prelude.{◌≡◌, ◌+◌, ◌-◌, ◌≤◌, ◌<◌, reverse};
ghost use Rattle.arrayvec.specs.ArrayVec.{array_vec_len};
ghost use Rattle.net_event_map.specs.EventMap.{CellsApart};
ghost use Rattle.net_notes.specs.Log.{matched_column, note_in, span_number, Notes};
ghost use Rattle.net_stack.specs.Stack.{alternative_stacked};
ghost use Rattle.net_stack.specs.Openings.{stack_length, ends_strand};
ghost use Rattle.net_stack.specs.Openings.{opening_of, opening_at, opening_left, opens, opened_if};

use arrayvec::ArrayVec;
use net_event_map::Layout;
use net_node::{EstTime, EstType};
use net_notes::{Column, Span};

// How many numbers the stack has (`stack_length`).
pub const STACK_LENGTH: usize = 4608;

// How many nexts a strand walk may read.
const MOST_NEXTS: u32 = 4096;

// The greatest number of the stack that is a node, and the least that is an opening (`opening_of`).
const LAST_NODE: u32 = 65535;

const FIRST_OPENING: u32 = 65536;

// The stack. Its numbers stay packed (specs/Openings.antt): which nodes are opened is counted in numbers of the stack,
// of which a node that is opened has two, so an item each would open others.
pub type Stack = ArrayVec<u32, STACK_LENGTH>;

// Whether a strand is left at a node: at an Arrive, and where there is no next.
#[tactic(auto, using(crate::proofs::Arrives::arrive_eq), unfolding(crate::specs::Openings::ends_strand))]
pub fn ends_strand(node: EstTime) -> bool
    ensures { result ≡ ends_strand node }
{
    let arrive = node.link_event.est_type == EstType::Arrive;
    arrive | (node.idx_next == 0)
}

// Puts a node and its opening on the stack, as long as there is room for them (`opens`).
#[tactic(auto, unfolding(crate::specs::Openings::opens))]
pub fn open_node(stack: &mut Stack, here: u32, at: usize, left: u32)
    requires room { array_vec_len stack.old + left ≤ stack_length }
    requires left_nonzero { 0 < left }
    requires few_left { left ≤ 4096 }
    requires few_entries { at ≤ 1024 }
    ensures holds { reverse stack.new.items ≡ opened_if (opens left (array_vec_len stack.old))
        (opening_of at left) here (reverse stack.old.items) }
    ensures room { array_vec_len stack.new + left ≤ stack_length }
    ensures top { array_vec_len stack.new ≤ array_vec_len stack.old + 2 }
{
    if stack.len() + left as usize + 1 < STACK_LENGTH {
        stack.push(here);
        stack.push(LAST_NODE + at as u32 * MOST_NEXTS + left);
    }
}

// Puts a node's alternative on the stack, if it has one.
pub fn stack_alternative(stack: &mut Stack, alt: u32)
    requires { array_vec_len stack.old < stack_length }
    ensures holds { reverse stack.new.items ≡ alternative_stacked alt (reverse stack.old.items) }
    ensures top { array_vec_len stack.new ≤ array_vec_len stack.old + 1 }
{
    if alt != 0 {
        stack.push(alt);
    }
}

// Notes what a node gives whose opening was popped: the entries, and the nexts read, since then.
pub fn close_node(cells: &mut [u32], w: Layout, i: u32, opening: u32, at: usize, left: u32)
    requires cells_apart { CellsApart cells.old w }
    requires i_lt_places { i < w.places }
    requires is_opening { 65536 ≤ opening }
    requires inside { opening_at opening ≤ at }
    requires few_entries { at ≤ 1024 }
    requires spent { left ≤ opening_left opening }
    ensures { Notes w i (note_in cells.old w i matched_column) (span_number (opening_at opening) at)
        (opening_left opening - left) cells.old cells.new }
{
    let c = opening - FIRST_OPENING;
    let span = Span {
        begin: (c / MOST_NEXTS) as usize,
        end: at,
    };
    let nexts = c % MOST_NEXTS + 1 - left;
    let matched = net_notes::noted(cells, w, i, Column::Matched);
    net_notes::note(cells, w, i, matched, span.number(), nexts);
}
