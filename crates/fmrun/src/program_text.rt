// The texts of fmrun that one word asks for.

ghost use Rattle.std.specs.Prelude.{◌≡◌};
ghost use Rattle.fm_cli.specs.Line.{Tells};
ghost use Rattle.fm_cli.specs.declared.status.TheConstants.{DONE};
ghost use Rattle.fmrun.specs.TopCall.{text_bytes};

use fm_cli::{put_line, status};
use fm_cli_requests::ProgramText;
use fm_files::Sink;
use std::alloc::Global;

/// The help, with its line ends.
pub const HELP: &str = "\
fmrun runs the class files of a program; memory that FreeMe.free frees serves again.

usage: fmrun [--steps N] [--words N] [--frames N] [--input FILE] [--args TEXT] CLASS FILE...
       fmrun [..] --make N

  --steps N      the budget of steps (100000000)
  --words N      how many words may be live at once (4194304)
  --frames N     how many frames there may be at once (1024)
  --input FILE   the file that System.in reads
  --args TEXT    the arguments of main, a space between each two
  CLASS          the class of the main method, with / between the parts of its name
  FILE...        the class files of the program
  --make N       a large program that is made, of class G, for N from 1 to 100
  -h, --help     print this help; taken as the only word
  -V, --version  print the version; taken as the only word

output: standard output has what the program prints, standard error the report
status: 0 returned, 1 uncaught, 64 these words, 65 a read failed, 66 to 69 a class file, 70 links,
        71 types, 75 a write failed, 76 no memory, 80 to 85 other ends; otherwise that of exit

example: fmrun --words 1000 Main freed/*.class
";

/// The version, with its line end.
pub const VERSION_LINE: &str = "fmrun 0.1.0\n";

/// Puts the text, and returns the status of what is done, or that of the put.
pub fn put_text<S: Sink>(alloc: Global, asked: ProgramText, out: &mut S) -> u8
    ensures { Tells (text_bytes asked) DONE (S.output out.old) (S.output out.new) result }
{
    put_line(alloc, out, text_of(asked).as_bytes(), status::DONE)
}

// The text.
fn text_of(asked: ProgramText) -> &'static str
    ensures { result.now ≡ text_bytes asked }
{
    match asked {
        ProgramText::Help => HELP,
        ProgramText::Version => VERSION_LINE,
    }
}
