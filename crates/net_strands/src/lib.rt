// A run's join entries, followed along the network to the nodes that have an event: `update_join_paths_space`.
// Contracts: specs/Space.antt; of the inner functions specs/Rebuild.antt, specs/Walks.antt, specs/Given.antt.
#![tactic(auto)]

ghost use Rattle.std.specs.Prelude.{◌≡◌, [], ◌≤◌, ◌<◌};
ghost use Rattle.std.proofs.Props.{props};
ghost use Rattle.net_node.specs.Held.{nodes_held};
ghost use Rattle.net_event_map.specs.EventMap.{CellsApart};
ghost use Rattle.net_notes.specs.Log.{Touched, Ungiven};
ghost use Rattle.net_join_paths.specs.Entries.{EntriesAs, ListBecomes, Valid};
ghost use Rattle.net_stack.specs.Stack.{is_arrive};
ghost use Rattle.net_strands.specs.Space.{alternatives, strand_from, strands, followed, extended, extended_all};
ghost use Rattle.net_strands.specs.Steps.{new_match};

use net_event_map::Layout;
use net_join_paths::{EstJoinPath, JoinPaths, push_entry, push_span};
use net_node::{EstType, LinkEvent, Nodes};
use net_notes::{Column, Span};
use net_stack::Stack;
use refusals::Refusal;

// What is looked at while a run's list is rebuilt for an event: the network, the event, whether some node of the
// network has it, the old list, and where the cells of links and nodes stand.
#[derive(Clone, Copy)]
struct Rebuild<'a> {
    nodes: Nodes<'a>,
    event: LinkEvent,
    seen: bool,
    old: &'a [EstJoinPath],
    layout: Layout,
    ghost within: { nodes.count ≤ layout.places },
    ghost valid: { Valid old.now nodes.count } by { Prim.hlevel props },
}

// The match link of an entry followed: m for an Arrive, 0 for a Clear.
fn new_match(kind: EstType, m: u32) -> u32
    ensures { result ≡ new_match (is_arrive kind) m }
{
    match kind {
        EstType::Arrive => m,
        EstType::Clear | EstType::Fake => 0,
    }
}

impl<'a> Rebuild<'a> {
    ghost use Rattle.net_strands.specs.Rebuild.{GivenFor, ExtendsBy};

    // Whether what an entry gives is noted: with several entries in the old list others may give the same. Nothing is
    // promised of it, since the new list is the same either way.
    fn notes(&self) -> bool {
        self.old.len() > 1
    }

    // An entry that matches already: node `start` and each of its alternatives gives its next if that has the event.
    #[tactic(auto, using(crate::proofs::Alternatives::following_start))]
    fn follow_alternatives(
        &self,
        link_idx_match: u32,
        start: u32,
        list: &mut JoinPaths,
    ) -> Result<(), Refusal>
        requires { start < self.now.nodes.count }
        ensures { ListBecomes (alternatives self.now.nodes.count (nodes_held self.now.nodes) self.now.event
            link_idx_match start) list result }
    {
        let mut i = start;
        loop {
            let node = self.nodes.load(i);
            let next = node.idx_next;
            let there = self.nodes.load(next);
            if there.link_event == self.event {
                let x = EstJoinPath {
                    link_idx_match,
                    est_idx_next: next,
                };
                push_entry(list, x)?;
            }
            if node.idx_next_alt == 0 {
                return Ok(());
            }
            i = node.idx_next_alt;
        }
    }

    // What an entry gives that matches already: worked out and, with several entries in the list, noted, or copied
    // where it is noted.
    #[tactic(auto, using(crate::proofs::Given::matched_laws))]
    fn follow_matched(
        &self,
        link_idx_match: u32,
        start: u32,
        cells: &mut [u32],
        list: &mut JoinPaths,
    ) -> Result<(), Refusal>
        requires start_lt_count { start < self.now.nodes.count }
        requires cells_apart { CellsApart cells.old self.now.layout }
        requires given { GivenFor self.now cells.old list.old.items }
        ensures { ExtendsBy self.now (alternatives self.now.nodes.count (nodes_held self.now.nodes)
            self.now.event link_idx_match start) cells list result }
    {
        let w = self.layout;
        if self.notes() {
            if let Some(span) = net_notes::noted_span(cells, w, start, Column::Matched) {
                return push_span(list, link_idx_match, span);
            }
        }
        let begin = list.len();
        self.follow_alternatives(link_idx_match, start, list)?;
        if self.notes() {
            let span = Span {
                begin,
                end: list.len(),
            };
            let strands = net_notes::noted(cells, w, start, Column::Strands);
            let nexts = net_notes::noted(cells, w, start, Column::Nexts);
            net_notes::note(cells, w, start, span.number(), strands, nexts);
        }
        Ok(())
    }

    // An entry that does not match yet: strands along nexts, with alternatives stacked, each up to the event, an
    // Arrive, an end, or a node of which it is noted what strands from it give. With several entries in the list that
    // is noted of the start, and of nodes where strands can meet: those with a previous alternative.
    #[tactic(auto, using(crate::proofs::Walking::beginning_laws))]
    fn follow_strands(
        &self,
        link_idx_match: u32,
        start: u32,
        cells: &mut [u32],
        stack: &mut Stack,
        list: &mut JoinPaths,
    ) -> Result<(), Refusal>
        requires start_lt_count { start < self.now.nodes.count }
        requires cells_apart { CellsApart cells.old self.now.layout }
        requires given { GivenFor self.now cells.old list.old.items }
        ensures { ExtendsBy self.now (λ es. strands 4096 (nodes_held self.now.nodes) self.now.event
            link_idx_match (strand_from start es)) cells list result }
    {
        // What is on the stack is still to be walked or closed, from the last down; `left` nexts may be read. Both
        // loops stand in one function: document 01 names the form (docs/DECISIONS.md).
        let w = self.layout;
        let mut left: u32 = 4096;
        stack.clear();
        stack.push(start);
        'strands: while let Some(top) = stack.pop() {
            if top >= 65536 {
                if let Some(i) = stack.pop() {
                    net_stack::close_node(cells, w, i, top, list.len(), left);
                }
                continue 'strands;
            }
            let mut here = top;
            // Not `for`: `left` falls by more than one where a noted strand is copied.
            while left > 0 {
                let node = self.nodes.load(here);
                let may_meet = self.notes() & ((node.idx_prev_alt != 0) | (left == 4096));
                if may_meet {
                    if let Some(span) = net_notes::noted_span(cells, w, here, Column::Strands) {
                        let nexts = net_notes::noted(cells, w, here, Column::Nexts);
                        if left < nexts {
                            return Err(Refusal::NoPlace);
                        }
                        push_span(list, link_idx_match, span)?;
                        left -= nexts;
                        continue 'strands;
                    }
                    net_stack::open_node(stack, here, list.len(), left);
                }
                net_stack::stack_alternative(stack, node.idx_next_alt);
                left -= 1;
                let next = node.idx_next;
                let there = self.nodes.load(next);
                let has_event = there.link_event == self.event;
                if has_event {
                    let x = EstJoinPath {
                        link_idx_match,
                        est_idx_next: next,
                    };
                    push_entry(list, x)?;
                }
                if has_event | net_stack::ends_strand(there) {
                    continue 'strands;
                }
                here = next;
            }
            return Err(Refusal::NoPlace);
        }
        Ok(())
    }

    // What an entry gives that is followed: by alternatives if it matches already, and else by strands.
    fn follow(
        &self,
        link_idx_match: u32,
        x: EstJoinPath,
        cells: &mut [u32],
        stack: &mut Stack,
        list: &mut JoinPaths,
    ) -> Result<(), Refusal>
        requires names_node { x.est_idx_next < self.now.nodes.count }
        requires cells_apart { CellsApart cells.old self.now.layout }
        requires given { GivenFor self.now cells.old list.old.items }
        ensures { ExtendsBy self.now (followed x.link_idx_match (nodes_held self.now.nodes) self.now.nodes.count
            self.now.event link_idx_match x.est_idx_next) cells list result }
    {
        let start = x.est_idx_next;
        if x.link_idx_match == 0 {
            return self.follow_matched(link_idx_match, start, cells, list);
        }
        self.follow_strands(link_idx_match, start, cells, stack, list)
    }

    // What one entry of the old list gives, behind the entries so far.
    #[tactic(auto, using(crate::proofs::Extending::entry_laws, crate::proofs::Given::extends_laws))]
    fn extend(
        &self,
        x: EstJoinPath,
        cells: &mut [u32],
        stack: &mut Stack,
        list: &mut JoinPaths,
    ) -> Result<(), Refusal>
        requires names_node { x.est_idx_next < self.now.nodes.count }
        requires cells_apart { CellsApart cells.old self.now.layout }
        requires given { GivenFor self.now cells.old list.old.items }
        ensures { ExtendsBy self.now (extended (nodes_held self.now.nodes) self.now.nodes.count self.now.event
            self.now.seen x) cells list result }
    {
        let m = x.link_idx_match;
        let node = self.nodes.load(x.est_idx_next);
        if node.idx_next == 0 {
            return Ok(());
        }
        let kind = self.event.est_type;
        let arrive = kind == EstType::Arrive;
        let cleared = (m == 0) | (m == self.event.link_idx);
        if !(arrive | cleared) {
            return push_entry(list, x);
        }
        if !self.seen {
            return Ok(());
        }
        self.follow(new_match(kind, m), x, cells, stack, list)
    }

    // The new list, out of the old one's entries, each dropped, copied or followed; what was noted stays in the cells.
    #[tactic(auto, using(crate::proofs::Extending::gathering_laws))]
    fn extend_all(
        &self,
        cells: &mut [u32],
        stack: &mut Stack,
        list: &mut JoinPaths,
    ) -> Result<(), Refusal>
        requires cells_apart { CellsApart cells.old self.now.layout }
        requires ungiven { Ungiven cells.old self.now.layout }
        requires some_nodes { 0 < self.now.nodes.count }
        ensures list { EntriesAs (extended_all (nodes_held self.now.nodes) self.now.nodes.count self.now.event
            self.now.seen self.now.old.now []) list.new.items result }
        ensures noted { Touched self.now.layout cells.old cells.new }
    {
        list.clear();
        for x in self.old {
            self.extend(*x, cells, stack, list)?;
        }
        Ok(())
    }
}

// The new list for an event, out of the old one's entries. `seen` says whether some node has the event: callers ask the
// event map (`net_event_map::contains`), which is not read here. What an entry gives is noted in the cells meanwhile;
// they are afterwards as they were.
pub fn update_join_paths_space(
    nodes: &Nodes,
    event: LinkEvent,
    seen: bool,
    old: &[EstJoinPath],
    cells: &mut [u32],
    w: Layout,
    stack: &mut Stack,
    list: &mut JoinPaths,
) -> Result<(), Refusal>
    requires within { nodes.now.count ≤ w.places }
    requires cells_apart { CellsApart cells.old w }
    requires valid { Valid old.now nodes.now.count }
    requires some_nodes { 0 < nodes.now.count }
    requires ungiven { Ungiven cells.old w }
    ensures list { EntriesAs (extended_all (nodes_held nodes.now) nodes.now.count event seen old.now [])
        list.new.items result }
    ensures cells { cells.new ≡ cells.old }
{
    let rebuild = Rebuild {
        nodes: *nodes,
        event,
        seen,
        old,
        layout: w,
    };
    let built = rebuild.extend_all(cells, stack, list);
    net_notes::forget_notes(cells, w);
    built
}
