// What is noted of a node while a run's join entries are followed for one event, which `net_strands` does: spans of the
// new list. And the log of the nodes of which something is noted, by which all of it is taken back. Contracts:
// specs/Log.antt.
#![tactic(auto)]

ghost use Rattle.std.specs.Prelude.{◌≡◌, List, ℕ, ◌≤◌, ◌<◌, length};
ghost use Rattle.net_event_map.specs.EventMap.{CellsApart};
ghost use Rattle.net_notes.specs.Log.{column_number, note_in, span_number, span_in, LogIn, Touched, Notes, Ungiven};

use net_event_map::Layout;

// The column of a name of the log, in a place's cells.
const NAME: usize = 1;

// What is noted of a node: what entries of it give that match already, what strands from it give, and how many nexts
// these read; each with its column of the node's cells (specs/Log.antt).
#[derive(Clone, Copy, Debug, PartialEq, Eq)]
pub enum Column {
    Matched = 5,
    Strands = 6,
    Nexts = 7,
}

// A span of the new list.
#[derive(Clone, Copy, Debug, PartialEq, Eq)]
pub struct Span {
    pub begin: usize,
    pub end: usize,
}

impl Span {
    // The span as a number that is not 0: what a cell holds, in which 0 is none.
    pub fn number(self) -> u32
        requires rises { self.begin ≤ self.end }
        requires few { self.end ≤ 1024 }
        ensures { result ≡ span_number self.begin self.end }
    {
        (self.begin * 2048 + self.end + 1) as u32
    }
}

// What a node's unit has in one column.
pub fn note_in(cells: &[u32], w: Layout, i: u32, column: usize) -> u32
    requires cells_apart { CellsApart cells.now w }
    requires i_lt_places { i < w.places }
    requires one_of_eight { column < 8 }
    ensures { result ≡ note_in cells.now w i column }
{
    cells[w.nodes_at + i as usize * 8 + column]
}

// What is noted of a node in one column, as a number.
pub fn noted(cells: &[u32], w: Layout, i: u32, column: Column) -> u32
    requires cells_apart { CellsApart cells.now w }
    requires i_lt_places { i < w.places }
    ensures { result ≡ note_in cells.now w i (column_number column) }
{
    note_in(cells, w, i, column as usize)
}

// The span that is noted of a node in one column, if any is.
pub fn noted_span(cells: &[u32], w: Layout, i: u32, column: Column) -> Option<Span>
    requires cells_apart { CellsApart cells.now w }
    requires i_lt_places { i < w.places }
    ensures { result ≡ span_in (note_in cells.now w i (column_number column)) }
{
    let number = noted(cells, w, i, column) as usize;
    if number == 0 {
        return None;
    }
    Some(Span {
        begin: (number - 1) / 2048,
        end: (number - 1) % 2048,
    })
}

// Notes three numbers of a node and logs it, unless the log is full. They are numbers, not spans: a caller that notes
// one of the three hands the others on as it has read them. The log has at most 65,535 names, since a name is
// counted in a u32.
pub fn note(cells: &mut [u32], w: Layout, i: u32, matched: u32, strands: u32, nexts: u32)
    requires cells_apart { CellsApart cells.old w }
    requires i_lt_places { i < w.places }
    ensures { Notes w i matched strands nexts cells.old cells.new }
{
    let count = cells[w.nodes_at + NAME];
    if (count >= 65535) | (count as usize + 1 >= w.places) {
        return;
    }
    let unit = w.nodes_at + i as usize * 8;
    cells[w.nodes_at + (count as usize + 1) * 8 + NAME] = i;
    cells[w.nodes_at + NAME] = count + 1;
    cells[unit + Column::Matched as usize] = matched;
    cells[unit + Column::Strands as usize] = strands;
    cells[unit + Column::Nexts as usize] = nexts;
}

// Takes back all that is noted and logged.
#[tactic(auto, using(crate::proofs::Log::forgetting_start))]
pub fn forget_notes(cells: &mut [u32], w: Layout)
    requires cells_apart { CellsApart cells.old w }
    requires log_in { LogIn cells.old w }
    ensures { (cells₀ : List ℕ) → length cells₀ ≡ length cells.old → Ungiven cells₀ w
        → Touched w cells₀ cells.old → cells.new ≡ cells₀ }
{
    let count = cells[w.nodes_at + NAME] as usize;
    for k in 1..count + 1 {
        let name = w.nodes_at + k * 8 + NAME;
        let unit = w.nodes_at + cells[name] as usize * 8;
        cells[name] = 0;
        cells[unit + Column::Matched as usize] = 0;
        cells[unit + Column::Strands as usize] = 0;
        cells[unit + Column::Nexts as usize] = 0;
    }
    cells[w.nodes_at + NAME] = 0;
}
