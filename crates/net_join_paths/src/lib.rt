// Join entries and their lists: an entry put behind a list, and the nodes of a span of it put behind it once more.
// Contracts: specs/Entries.antt, specs/Spans.antt.
#![tactic(auto)]

ghost use Rattle.std.specs.Prelude.{◌≡◌, ◌-◌, ◌≤◌, OnErr};
ghost use Rattle.arrayvec.specs.ArrayVec.{array_vec_len};
ghost use Rattle.net_join_paths.specs.Entries.{push, ListBecomes};
ghost use Rattle.net_join_paths.specs.Spans.{pushed_all, nodes_in};

use arrayvec::ArrayVec;
use net_notes::Span;
use refusals::Refusal;

// A join entry: the link to be matched (0: matched already) and a node of the network. The 0 is the source's, and the
// waiting runs' entries stand so in the cells: an Option would be made of it and back.
#[derive(Clone, Copy, Debug, Default, PartialEq, Eq)]
pub struct EstJoinPath {
    pub link_idx_match: u32,
    pub est_idx_next: u32,
}

// A list of join entries.
pub type JoinPaths = ArrayVec<EstJoinPath, 1024>;

// Puts an entry behind a list, if it has less than 1,024; else the list stays.
#[tactic(auto, unfolding(crate::specs::Entries::push))]
pub fn push_entry(list: &mut JoinPaths, x: EstJoinPath) -> Result<(), Refusal>
    ensures list { ListBecomes (λ es. push es x) list result }
    ensures kept { OnErr result (list.new ≡ list.old) }
{
    list.try_push(x).map_err(|_| Refusal::NoPlace)
}

// An entry for each node of a span of a list, put behind it.
#[tactic(auto, using(crate::proofs::Spans::copying_start, crate::proofs::Spans::copying_whole))]
pub fn push_span(list: &mut JoinPaths, link_idx_match: u32, span: Span) -> Result<(), Refusal>
    requires rises { span.begin ≤ span.end }
    requires inside { span.end ≤ array_vec_len list.old }
    ensures { ListBecomes (pushed_all link_idx_match
        (nodes_in list.old.items span.begin (span.end - span.begin))) list result }
{
    for k in span.begin..span.end {
        let x = EstJoinPath {
            link_idx_match,
            est_idx_next: list[k].est_idx_next,
        };
        push_entry(list, x)?;
    }
    Ok(())
}
