//! `Command`: what the words of a command line request.

ghost use Rattle.std.specs.Prelude.{◌≡◌, false, IfOk, map};
ghost use Rattle.clap.specs.declared.builder.command.Command.TheViews.{out-Command};
ghost use Rattle.clap.specs.Words.{app_of, found_of, new_app, rows_of, subcommand_rows_of, with_rule};
ghost use Rattle.etcs_run.specs.Command.{command_line, parsed_command, entered, has_radio, radio};

use clap::error::ErrorKind;
use clap::{Arg, ArgAction, ArgMatches, Command as CommandLine};
use etcs_bits::Memory;
use std::alloc::{AllocError, Global};

/// A command of the program.
#[derive(Clone, Copy, Debug, PartialEq, Eq)]
pub enum Command {
    /// Check the document of a railway line.
    Check,
    /// Decode lines of hexadecimal text, each a telegram, to JSON lines.
    Decode,
    /// Decode a stream of radio messages, in lines of hexadecimal text, to JSON lines.
    DecodeRadio,
    /// Encode JSON lines, each the form of a telegram, to lines of hexadecimal text.
    Encode,
    /// Encode JSON lines, each the form of a radio message, to lines of hexadecimal text.
    EncodeRadio,
}

// The subcommand of this name with the flag `--radio`.
fn with_radio<'a>(alloc: Global, name: &'a str) -> Result<CommandLine<'a>, AllocError>
    ensures app { IfOk result (λ p. app_of p ≡ with_rule (new_app name.entry.now) radio) }
    ensures local { IfOk result (λ p. (out-Command p).has_globals ≡ false) }
{
    let flag = Arg::new(alloc, "radio")
        .long("radio")
        .action(ArgAction::SetTrue);
    let start = CommandLine::new(alloc, name);
    let whole = start.arg(flag)?;
    Ok(whole)
}

// The command line that the program understands: `balisecheck decode [--radio]`, `balisecheck encode
// [--radio]` and `balisecheck check`.
fn grammar<'a>(alloc: Global) -> Result<CommandLine<'a>, AllocError>
    ensures { IfOk result (λ p. app_of p ≡ command_line) }
{
    let decode = with_radio(alloc, "decode")?;
    let encode = with_radio(alloc, "encode")?;
    let check = CommandLine::new(alloc, "check");
    let program = CommandLine::new(alloc, "balisecheck");
    let one = program.subcommand(decode)?;
    let both = one.subcommand(encode)?;
    let all = both.subcommand(check)?;
    Ok(all)
}

// Whether the flag `--radio` was given.
fn is_radio(matches: &ArgMatches<'_>) -> bool
    ensures { result ≡ has_radio (rows_of (found_of matches.now)) }
{
    match matches.get_str("radio") {
        Some(value) => value == "true",
        None => false,
    }
}

// The command that `clap` found among the words.
fn entered_command(matches: &ArgMatches<'_>) -> Option<Command>
    ensures { result ≡ entered (subcommand_rows_of matches.now) }
{
    let (name, inner) = matches.subcommand()?;
    match name {
        "check" => Some(Command::Check),
        "decode" if is_radio(inner) => Some(Command::DecodeRadio),
        "decode" => Some(Command::Decode),
        "encode" if is_radio(inner) => Some(Command::EncodeRadio),
        "encode" => Some(Command::Encode),
        _ => None,
    }
}

/// The command that the words of a command line give, or `None` if they are not a command. The first
/// word is the program's name.
///
/// A request for help is not a command, so the texts of `clap` are never printed. Fails only if memory runs
/// out; then no command is returned.
pub fn read_command<'a>(alloc: Global, words: &'a [&'a str]) -> Result<Option<Command>, Memory>
    ensures { IfOk result (λ c. c ≡ parsed_command (map (λ w. w.now) words.entry.now)) }
{
    let grammar = grammar(alloc)?;
    match grammar.try_get_matches_from(words) {
        Ok(matches) => Ok(entered_command(&matches)),
        Err(error) => match error.kind() {
            ErrorKind::OutOfMemory => Err(Memory),
            _ => Ok(None),
        },
    }
}
