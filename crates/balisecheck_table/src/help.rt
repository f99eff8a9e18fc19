//! Help and the version of the program, for standard error.

/// The program's name and version, the number in the file VERSION. `scripts/release.sh raise` changes both.
pub const VERSION: &str = "balisecheck_table 0.5.16";

/// How the program is called.
pub const HELP: &str = "\
balisecheck_table checks the data of ETCS balises in a CSV table (SUBSET-026, system versions 2.0 and 2.1).

usage:
  balisecheck_table < FILE       checks a table, and answers yes or lists findings with their rows
  balisecheck_table --version    writes the version to standard error

The heading row has the headings group and telegram, and may have aspect and balise.

exit status:
  0  the answer is yes
  1  there are findings
  2  refused: the table or the command line, also for help and the version
  3  no answer: out of memory, or a device failed";

/// The help or the version, if the words of a command line request it. The first word is the program's name.
pub fn help_for(words: &[&str]) -> Option<&'static str> {
    match words {
        [_, "--version", ..] => Some(VERSION),
        [_, "help", ..] | [_, "--help", ..] | [_, "-h", ..] => Some(HELP),
        _ => None,
    }
}
