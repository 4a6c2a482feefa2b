// Reads a book from standard input and prints the number that it gets by rows 1 to 8, or that it is readable.
// The limits are those of the program `sheet`: books of 65,536 bytes, 192 nodes, 65,536 bytes of work space.
// Where standard input can't be read or standard output takes no more, standard error says so and the exit status is 1.
#![tactic(auto)]

ghost use Rattle.std.specs.Prelude.{◌≡◌, IfSome, OnOk};
ghost use Rattle.std.specs.Io.KnownBytes.{Appends};
ghost use Rattle.laws.specs.Answer.{number_of};
ghost use Rattle.refusals.specs.Refusals.{told};
ghost use Rattle.book_reader.specs.Reader.{read_number};
ghost use Rattle.readable.specs.Readable.{input_text, number_text};

use refusals::Refusal;
use std::io;
use std::io::{Read, Write};

// The refusal that a book gets for a table of 192 nodes and 65,536 bytes of work space, if it gets one.
fn read(book: &[u8]) -> Result<(), Refusal>
    ensures { number_of (told result) ≡ read_number book.now 192 65536 }
{
    // As many units as `sheet` has, by the same numbers: 65,536 bytes.
    let mut reals = [0.0f64; 3072];
    let mut cells = [0u32; 8192];
    let mut marks = [0u32; 2048];
    book_reader::check_book(book, 192, &mut reals, &mut cells, &mut marks)
}

// Prints the answer.
fn print_answer<W: Write>(answer: Result<(), Refusal>, to: &mut W) -> io::Result<()>
    ensures { OnOk result (Appends (W.contents to.old) (W.contents to.new) (number_text (number_of (told answer)))) }
{
    match answer {
        Ok(()) => to.write_all(b"readable\n"),
        Err(refusal) => writeln!(to, "{refusal}"),
    }
}

// Reads the whole input and prints the answer to it.
fn answer<R: Read, W: Write>(rt: &impl Eprint, from: &mut R, to: &mut W) -> io::Result<()>
    ensures { OnOk result (IfSome (R.remaining from.old)
        (λ input. Appends (W.contents to.old) (W.contents to.new) (input_text input))) }
{
    streams::answer_whole(
        rt,
        "readable",
        from,
        to,
        |book, to| print_answer(read(book), to),
    )
}

fn main(rt: HostRuntime) -> io::Result<()> {
    answer(&rt, &mut rt.stdin(), &mut rt.stdout())
}
