// The texts of freeme that one word asks for.

ghost use Rattle.std.specs.Prelude.{◌≡◌};
ghost use Rattle.fm_cli.specs.Line.{Tells};
ghost use Rattle.fm_cli.specs.declared.status.TheConstants.{DONE};
ghost use Rattle.freeme.specs.TopCall.{text_bytes};

use fm_cli::{put_line, status};
use fm_cli_requests::ProgramText;
use fm_files::Sink;
use std::alloc::Global;

/// The help, with its line ends.
pub const HELP: &str = "\
freeme writes the class files of a program again, with calls that free what dies young,
or audits files that were written so.

usage: freeme --out DIR --main CLASS [--rapid] [--chains] FILE...
       freeme --out DIR --make N
       freeme --audit DIR --main CLASS FILE...

  --out DIR      write each class as DIR/NAME.class
  --main CLASS   the class of the main method, with / between the parts of its name
  FILE...        the class files of the program
  --rapid        take virtual calls to lead only to classes of which objects are made
  --chains       free all objects that a site in a loop gave, and not only the last one
  --make N       a large program that is made, of class G, for N from 1 to 100
  --audit DIR    read each DIR/NAME.class, and report whether its insertions are safe
  -h, --help     print this help; taken as the only word
  -V, --version  print the version; taken as the only word

status: 0 done, 64 these words, 65 a read failed, 66 to 69 a class file, 70 links, 71 types,
        72 to 74 no rewriting, 75 a write failed, 76 no memory, 78 not safe

example: freeme --out freed --main Main classes/*.class
";

/// The version, with its line end.
pub const VERSION_LINE: &str = "freeme 0.1.0\n";

/// Puts the text, and returns the status of what is done, or that of the put.
pub fn put_text<S: Sink>(alloc: Global, asked: ProgramText, out: &mut S) -> u8
    ensures { Tells (text_bytes asked) DONE (S.output out.old) (S.output out.new) result }
{
    put_line(alloc, out, text_of(asked).as_bytes(), status::DONE)
}

// The text.
fn text_of(asked: ProgramText) -> &'static str
    ensures { result.now ≡ text_bytes asked }
{
    match asked {
        ProgramText::Help => HELP,
        ProgramText::Version => VERSION_LINE,
    }
}
