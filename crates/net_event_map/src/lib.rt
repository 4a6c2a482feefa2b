// The nodes of an event, kept in the work space: the source's `link_event_map`. Contracts: specs/EventMap.antt.
#![tactic(auto)]

ghost use Rattle.std.specs.Prelude.{◌≡◌, ℕ, ◌+◌, ◌*◌, ◌≤◌, ◌<◌, length, get_or};
ghost use Rattle.net_node.specs.declared.EstTime.{EstTime};
ghost use Rattle.net_event_map.specs.EventMap.{seen_in, arrive_at, clear_at, CellsApart, Mapped, MapOnly, Real};
ghost use Rattle.net_event_map.specs.EventMap.{first_at, next_at, MapsNode, MapsEach};

use net_node::{EstType, LinkEvent};

// Where the cells of links and of nodes stand, and how many links and places there are. It goes beside `cells`, and not
// with them in one struct: insertion, notes and growth write other columns of the same cells between two calls, and
// would take the struct apart for it. A struct for reading alone would stand beside this one, for seven functions of
// 23.
#[derive(Clone, Copy)]
pub struct Layout {
    pub links_at: usize,
    pub nodes_at: usize,
    pub links: usize,
    pub places: usize,
}

// Whether some node has the event.
#[tactic(auto, using(crate::proofs::Chains::arrive_seen, crate::proofs::Chains::clear_seen))]
pub fn contains(cells: &[u32], w: Layout, event: LinkEvent) -> bool
    requires cells_apart { CellsApart cells.now w }
    requires real { Real event w.links }
    ensures { (node : ℕ → EstTime) (n : ℕ) → Mapped cells.now w node n → result ≡ seen_in node n event }
{
    let at = w.links_at + event.link_idx as usize * 8;
    let kind = event.est_type;
    match kind {
        EstType::Arrive => cells[at] != 0,
        EstType::Clear => cells[at + 2] != 0,
        EstType::Fake => false,
    }
}

// The first node with the Arrive of a link, or 0: `Mapped`'s `first`. No Option, here and below: the loop along the
// chain tests what the cell holds, and `open_cell` compares it.
pub fn first_node(cells: &[u32], w: Layout, link_idx: u32) -> u32
    requires cells_apart { CellsApart cells.now w }
    requires link_idx_lt_links { link_idx < w.links }
    ensures { result ≡ get_or cells.now (first_at w link_idx) 0 }
{
    cells[w.links_at + link_idx as usize * 8]
}

// The next node with the Arrive of node i, or 0: `Mapped`'s `next`. It holds while nodes are marked, too.
pub fn next_node(cells: &[u32], w: Layout, i: u32) -> u32
    requires cells_apart { CellsApart cells.now w }
    requires i_lt_places { i < w.places }
    ensures { result ≡ get_or cells.now (next_at w i) 0 }
{
    cells[w.nodes_at + i as usize * 8]
}

// The cell that will name the next Arrive of a link: the link's first cell, or its last node's.
fn open_cell(cells: &[u32], w: Layout, link_idx: u32) -> usize
    requires cells_apart { CellsApart cells.now w }
    requires link_idx_lt_links { link_idx < w.links }
    requires last_placed { get_or cells.now (first_at w link_idx + 1) 0 < w.places }
    ensures first { get_or cells.now (first_at w link_idx) 0 ≡ 0 → result ≡ first_at w link_idx }
    ensures behind { 0 < get_or cells.now (first_at w link_idx) 0
        → result ≡ next_at w (get_or cells.now (first_at w link_idx + 1) 0) }
{
    let at = w.links_at + link_idx as usize * 8;
    if cells[at] == 0 {
        return at;
    }
    w.nodes_at + cells[at + 1] as usize * 8
}

// Node i has the Arrive of a link: it is named behind the link's last node, and is the last.
#[tactic(auto, using(crate::proofs::Chains::arrived_open))]
fn append_arrive(cells: &mut [u32], w: Layout, i: u32, link_idx: u32)
    requires cells_apart { CellsApart cells.old w }
    requires link_idx_lt_links { link_idx < w.links }
    requires last_placed { get_or cells.old (first_at w link_idx + 1) 0 < w.places }
    requires i_lt_places { i < w.places }
    ensures mapped { MapsNode cells.old cells.new w i (arrive_at link_idx) }
    ensures elsewhere { MapOnly cells.old cells.new w }
{
    let at = w.links_at + link_idx as usize * 8;
    let open = open_cell(cells, w, link_idx);
    cells[open] = i;
    cells[at + 1] = i;
}

// The new node has the Clear of a link.
#[tactic(auto, using(crate::proofs::Chains::cleared_one, crate::proofs::Chains::cleared_only))]
fn mark_clear(cells: &mut [u32], w: Layout, link_idx: u32)
    requires cells_apart { CellsApart cells.old w }
    requires link_idx_lt_links { link_idx < w.links }
    ensures mapped { MapsEach cells.old cells.new w (clear_at link_idx) }
    ensures elsewhere { MapOnly cells.old cells.new w }
{
    let at = w.links_at + link_idx as usize * 8;
    cells[at + 2] = 1;
}

// Node i, which is new and the last, has the event.
#[tactic(auto, using(crate::proofs::Chains::arrive_is, crate::proofs::Chains::clear_is))]
pub fn insert(cells: &mut [u32], w: Layout, i: u32, event: LinkEvent)
    requires cells_apart { CellsApart cells.old w }
    requires real { Real event w.links }
    requires last_placed { get_or cells.old (first_at w event.link_idx + 1) 0 < w.places }
    requires i_lt_places { i < w.places }
    requires few_places { w.places ≤ 65535 }
    requires i_nonzero { 0 < i }
    ensures mapped { MapsNode cells.old cells.new w i event }
    ensures elsewhere { MapOnly cells.old cells.new w }
{
    let link_idx = event.link_idx;
    let kind = event.est_type;
    match kind {
        EstType::Arrive => append_arrive(cells, w, i, link_idx),
        EstType::Clear => mark_clear(cells, w, link_idx),
        EstType::Fake => {}
    }
}
