// Reads a book from standard input and prints the listing of its sheet, or `refused N`: books to 65,536 bytes (longer
// ones print `too long`), 192 nodes, 65,536 bytes of work space.
// Where standard input can't be read or standard output takes no more, as on a full disk, where it is closed or where
// nobody reads the pipe that it is, standard error says so and the exit status is 1.
#![tactic(auto)]

ghost use Rattle.std.specs.Prelude.{◌≡◌, ◌<◌, ◌≤◌, ◌++◌, ◌∷◌, [], IfSome, OnOk, codes, length};
ghost use Rattle.std.specs.Io.KnownBytes.{Appends};
ghost use Rattle.sheets.specs.Sheets.{SheetPrinted};

use std::io::{Read, Result, Write};

// Reads the whole input and prints the answer to it.
fn answer<R: Read, W: Write>(rt: &impl Eprint, from: &mut R, to: &mut W) -> Result<()>
    ensures book { OnOk result (IfSome (R.remaining from.old) (λ input.
        length input ≤ 65536 → SheetPrinted input (W.contents to.old) (W.contents to.new))) }
    ensures longer { OnOk result (IfSome (R.remaining from.old) (λ input.
        65536 < length input → Appends (W.contents to.old) (W.contents to.new) (codes "too long" ++ 10 ∷ []))) }
{
    streams::answer_whole(
        rt,
        "sheet",
        from,
        to,
        |book, to| sheets::print_sheet(book, to),
    )
}

fn main(rt: HostRuntime) -> Result<()> {
    answer(&rt, &mut rt.stdin(), &mut rt.stdout())
}
