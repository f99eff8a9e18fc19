//! Advice for a person whose words are not a command, in addition to the usage line.

/// The advice for the words of a command line, if they are a usual mistake. The first word is the
/// program's name.
pub fn advice_for(words: &[&str]) -> Option<&'static str> {
    match words {
        [_, "check", "--radio", ..] => Some("--radio stands with decode and encode alone"),
        [_, "check", name, ..] if !name.starts_with("-") => {
            Some("the input is standard input: balisecheck check < FILE")
        }
        [_, "decode", name, ..] if !name.starts_with("-") => {
            Some("the input is standard input: balisecheck decode < FILE")
        }
        [_, "encode", name, ..] if !name.starts_with("-") => {
            Some("the input is standard input: balisecheck encode < FILE")
        }
        _ => None,
    }
}
