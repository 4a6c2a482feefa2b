// The report of a sheet: its five numbers, as a record and as callers of other languages have them. Contracts:
// specs/Numbers.antt.
#![tactic(auto)]

// "a report of nodes, added (origins' nodes included), splits, joined, finished". That of a refusal is the default:
// zeros.
#[derive(Clone, Copy, Debug, Default, PartialEq, Eq)]
pub struct Report {
    pub nodes: usize,
    pub added: usize,
    pub splits: usize,
    pub joined: usize,
    pub finished: usize,
}

// A report's numbers, in their order.
impl From<Report> for [usize; 5] {
    ghost use Rattle.std.specs.Prelude.{◌≡◌};
    ghost use Rattle.report.specs.Numbers.{numbers_of};

    ghost from_gives = { λ r ns. ns ≡ numbers_of r };

    fn from(r: Report) -> [usize; 5] {
        [r.nodes, r.added, r.splits, r.joined, r.finished]
    }
}

// The report of five numbers.
impl From<[usize; 5]> for Report {
    ghost use Rattle.std.specs.Prelude.{◌≡◌};
    ghost use Rattle.report.specs.Numbers.{report_in};

    ghost from_gives = { λ ns r. r ≡ report_in ns };

    fn from(from: [usize; 5]) -> Report {
        Report {
            nodes: from[0],
            added: from[1],
            splits: from[2],
            joined: from[3],
            finished: from[4],
        }
    }
}
