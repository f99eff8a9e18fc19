//! The commands: each returns what the program writes for an input, and its status, or only the length of the text.

ghost use Rattle.std.specs.Prelude.{◌≡◌, IfSome, None};
ghost use Rattle.etcs_run.specs.Commands.{command_output};
ghost use Rattle.etcs_run.specs.Output.{Output};
ghost use Rattle.balisecheck_c.specs.Answer.{IsAnswer, IsLength, memory_status};

use crate::answer::{count, out_of_memory, put};
use etcs_run::{Command, Counted, Status, execute};
use std::alloc::Global;

// The text and the status of the command for this input, unless memory runs out.
fn output(alloc: Global, command: Command, input: &[u8]) -> Option<(Vec<u8>, Status)>
    ensures { IfSome result (λ o. command_output command input.now ≡ (o.0.items, o.1)) }
{
    let mut reader = Counted::new(input);
    let mut writer = Counted::new(Vec::new(alloc));
    match execute(alloc, command, &mut reader, &mut writer) {
        Ok(status) => Some((writer.into_inner(), status)),
        Err(_) => None,
    }
}

/// Puts what a command wrote into the buffer. A buffer that is too small is never reported as a lack of memory.
pub fn answer(written: Option<(Vec<u8>, Status)>, buffer: &mut [u8], length: &mut usize) -> u32
    ensures means { (meaning : Output) → IfSome written (λ o. meaning ≡ (o.0.items, o.1))
        → IsAnswer meaning buffer.old buffer.new length.new result }
    ensures memory { result ≡ memory_status → written ≡ None }
{
    match written {
        Some((text, status)) => put(text.as_slice(), status, buffer, length),
        None => out_of_memory(length),
    }
}

/// The length of what a command wrote.
pub fn length_of(written: Option<(Vec<u8>, Status)>, length: &mut usize) -> u32
    ensures means { (meaning : Output) → IfSome written (λ o. meaning ≡ (o.0.items, o.1))
        → IsLength meaning length.new result }
    ensures memory { result ≡ memory_status → written ≡ None }
{
    match written {
        Some((text, status)) => count(text.as_slice(), status, length),
        None => out_of_memory(length),
    }
}

/// `balisecheck check`: from the document of a railway line to the findings about it.
#[unsafe(no_mangle)]
pub extern "C" fn balisecheck_check(
    alloc: Global,
    input: &[u8],
    buffer: &mut [u8],
    length: &mut usize,
) -> u32
    ensures { IsAnswer (command_output Command.Check input.now) buffer.old buffer.new length.new result }
{
    answer(output(alloc, Command::Check, input), buffer, length)
}

/// `balisecheck decode`: from lines of hexadecimal text, each a telegram, to lines of JSON.
#[unsafe(no_mangle)]
pub extern "C" fn balisecheck_decode(
    alloc: Global,
    input: &[u8],
    buffer: &mut [u8],
    length: &mut usize,
) -> u32
    ensures { IsAnswer (command_output Command.Decode input.now) buffer.old buffer.new length.new result }
{
    answer(output(alloc, Command::Decode, input), buffer, length)
}

/// `balisecheck decode --radio`: from a stream of radio messages, in lines of hexadecimal text, to lines of
/// JSON.
#[unsafe(no_mangle)]
pub extern "C" fn balisecheck_decode_radio(
    alloc: Global,
    input: &[u8],
    buffer: &mut [u8],
    length: &mut usize,
) -> u32
    ensures { IsAnswer (command_output Command.DecodeRadio input.now) buffer.old buffer.new length.new result }
{
    answer(output(alloc, Command::DecodeRadio, input), buffer, length)
}

/// `balisecheck encode`: from lines of JSON to lines of hexadecimal text, each a telegram.
#[unsafe(no_mangle)]
pub extern "C" fn balisecheck_encode(
    alloc: Global,
    input: &[u8],
    buffer: &mut [u8],
    length: &mut usize,
) -> u32
    ensures { IsAnswer (command_output Command.Encode input.now) buffer.old buffer.new length.new result }
{
    answer(output(alloc, Command::Encode, input), buffer, length)
}

/// `balisecheck encode --radio`: from lines of JSON to lines of hexadecimal text, each a radio message.
#[unsafe(no_mangle)]
pub extern "C" fn balisecheck_encode_radio(
    alloc: Global,
    input: &[u8],
    buffer: &mut [u8],
    length: &mut usize,
) -> u32
    ensures { IsAnswer (command_output Command.EncodeRadio input.now) buffer.old buffer.new length.new result }
{
    answer(output(alloc, Command::EncodeRadio, input), buffer, length)
}

/// The length of the text that `balisecheck check` writes for this input, and its status.
#[unsafe(no_mangle)]
pub extern "C" fn balisecheck_check_length(alloc: Global, input: &[u8], length: &mut usize) -> u32
    ensures { IsLength (command_output Command.Check input.now) length.new result }
{
    length_of(output(alloc, Command::Check, input), length)
}

/// The length of the text that `balisecheck decode` writes for this input, and its status.
#[unsafe(no_mangle)]
pub extern "C" fn balisecheck_decode_length(alloc: Global, input: &[u8], length: &mut usize) -> u32
    ensures { IsLength (command_output Command.Decode input.now) length.new result }
{
    length_of(output(alloc, Command::Decode, input), length)
}

/// The length of the text that `balisecheck decode --radio` writes for this input, and its status.
#[unsafe(no_mangle)]
pub extern "C" fn balisecheck_decode_radio_length(
    alloc: Global,
    input: &[u8],
    length: &mut usize,
) -> u32
    ensures { IsLength (command_output Command.DecodeRadio input.now) length.new result }
{
    length_of(output(alloc, Command::DecodeRadio, input), length)
}

/// The length of the text that `balisecheck encode` writes for this input, and its status.
#[unsafe(no_mangle)]
pub extern "C" fn balisecheck_encode_length(alloc: Global, input: &[u8], length: &mut usize) -> u32
    ensures { IsLength (command_output Command.Encode input.now) length.new result }
{
    length_of(output(alloc, Command::Encode, input), length)
}

/// The length of the text that `balisecheck encode --radio` writes for this input, and its status.
#[unsafe(no_mangle)]
pub extern "C" fn balisecheck_encode_radio_length(
    alloc: Global,
    input: &[u8],
    length: &mut usize,
) -> u32
    ensures { IsLength (command_output Command.EncodeRadio input.now) length.new result }
{
    length_of(output(alloc, Command::EncodeRadio, input), length)
}
