//! Help and the version of the program, for standard error.

/// The program's name and version, the number in the file VERSION. `scripts/release.sh raise` changes both.
pub const VERSION: &str = "balisecheck 0.5.16";

/// How the program is called, with examples.
pub const HELP: &str = "\
balisecheck reads, writes and checks the data of ETCS balises (SUBSET-026, system versions 2.0 and 2.1).

usage:
  balisecheck check < FILE               checks a document, and answers yes or lists findings
  balisecheck decode [--radio] < FILE    reads hexadecimal text, and writes lines of JSON
  balisecheck encode [--radio] < FILE    reads lines of JSON, and writes hexadecimal text
  balisecheck --version                  writes the version to standard error

examples:
  echo a1007f802000ffffffffffffffffffffffffffffffffffffffffc0 | balisecheck decode
  echo '{\"groups\":[],\"messages\":[]}' | balisecheck check

exit status:
  0  all lines are done, or the answer of check is yes
  1  check has findings
  2  refused: a line, a message, a document or the command line, also for help and the version
  3  no answer: out of memory, or a device failed

The manual page balisecheck(1) describes the formats.";

/// The help or the version, if the words of a command line request it. The first word
/// is the program's name.
pub fn help_for(words: &[&str]) -> Option<&'static str> {
    match words {
        [_, "--version", ..] => Some(VERSION),
        [_, "help", ..] | [_, "--help", ..] | [_, "-h", ..] | [_, _, "--help", ..] => Some(HELP),
        _ => None,
    }
}
