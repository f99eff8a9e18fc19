//! `RadioDecoding`: a stream of radio messages, in lines of hexadecimal text, becomes lines of JSON.

ghost use Rattle.std.specs.Prelude.{◌≡◌, ◌+◌, ◌<◌, ◌≤◌, ◌^◌, [], length, OnOk, Ok};
ghost use Rattle.etcs_bits.specs.layout.Results.{Means};
ghost use Rattle.etcs_radio.specs.Meaning.{read_message};
ghost use Rattle.etcs_radio.specs.Splitter.{splitter_state};
ghost use Rattle.etcs_run.specs.Counted.{CanCount, FlushesNone, wrapped};
ghost use Rattle.etcs_run.specs.LineReading.{CountsDevice};
ghost use Rattle.etcs_run.specs.RadioHeld.{Feeds, least_read, kept_bytes, messages_written};
ghost use Rattle.etcs_run.specs.RadioStream.{bytes_output, message_json, message_output};
ghost use Rattle.etcs_run.specs.Ran.{AnswersLine};

use crate::control_flow::ControlFlow;
use crate::counted::Counted;
use crate::each_text_line::{refuse_line, trim};
use crate::error::RunError;
use crate::output::{put, refuse};
use crate::status::Status;
use crate::text_line_command::TextLineCommand;
use etcs_bits::DecodeError;
use etcs_document::{LineFault, Refusal, StreamFault};
use etcs_json::json_line;
use etcs_radio::{Splitter, State, decode};
use etcs_telegram::TextError;
use hex::FromHexError;
use std::alloc::Global;
use std::io::Write;
use std::mem;

// The JSON line of the message of these bytes. `room` is the buffer of an earlier line.
fn message_line(alloc: Global, room: Vec<u8>, bytes: &[u8]) -> Result<Vec<u8>, DecodeError>
    ensures { Means (λ line. line.items) result (message_json (read_message bytes.now)) }
{
    let message = decode(alloc, bytes)?;
    Ok(json_line(room, &message)?)
}

/// A command that cuts the bytes of all lines into radio messages, independent of the ends of the lines, and
/// writes a JSON line for each. It holds one message at most, and writes its line before it reads the next
/// byte.
#[derive(Drop)]
pub struct RadioDecoding {
    splitter: Splitter,
    // The number of the next message.
    number: u64,
    // The last JSON line. Its buffer is reused for the next one.
    room: Vec<u8>,
}

impl RadioDecoding {
    /// The command, before its first line. Allocates nothing yet.
    pub fn new(alloc: Global) -> RadioDecoding
        ensures number { messages_written result ≡ 0 }
        ensures kept { kept_bytes result ≡ [] }
    {
        RadioDecoding {
            splitter: Splitter::new(),
            number: 0,
            room: Vec::new(alloc),
        }
    }

    // Writes the line of the message that is held, or its refusal. After the line the splitter holds
    // nothing.
    fn answer_message<W: Write>(
        &mut self,
        alloc: Global,
        writer: &mut Counted<W>,
    ) -> Result<ControlFlow, RunError>
        requires ready { splitter_state (kept_bytes self.old) ≡ State.Ready }
        requires numbered { messages_written self.old + 1 < 2 ^ 64 }
        requires writes { CanCount writer.old }
        ensures answers_line { AnswersLine (W.contents (wrapped writer.old)) (W.contents (wrapped writer.new))
            (message_output (messages_written self.old) (message_json (read_message (kept_bytes self.old)))) result }
        ensures next { result ≡ Ok ControlFlow.Next → messages_written self.new ≡ messages_written self.old + 1 }
        ensures cleared { result ≡ Ok ControlFlow.Next → kept_bytes self.new ≡ [] }
        ensures bounded { OnOk result (least_read self.new ≤ least_read self.old) }
        ensures counts { CountsDevice result writer.old writer.new }
        ensures unflushed { FlushesNone writer.old writer.new }
    {
        let earlier = mem::replace(&mut self.room, Vec::new(alloc));
        match message_line(alloc, earlier, self.splitter.message()) {
            Ok(line) => {
                put(writer, line.as_slice())?;
                self.room = line;
                self.splitter.clear();
                self.number += 1;
                Ok(ControlFlow::Next)
            }
            Err(DecodeError::Memory) => Err(RunError::Memory),
            Err(DecodeError::Fault(fault)) => {
                let why = Refusal::Message(self.number, StreamFault::Fault(fault));
                Ok(ControlFlow::Stop(refuse(alloc, &why, writer)?))
            }
        }
    }

    // Feeds the bytes to the splitter, and answers each message as soon as it is complete.
    fn feed<W: Write>(
        &mut self,
        alloc: Global,
        bytes: &[u8],
        writer: &mut Counted<W>,
    ) -> Result<ControlFlow, RunError>
        requires numbered { least_read self.old + length bytes.now < 2 ^ 64 }
        requires writes { CanCount writer.old }
        ensures feeds { Feeds (W.contents (wrapped writer.old)) (W.contents (wrapped writer.new))
            (bytes_output (messages_written self.old) (kept_bytes self.old) bytes.now) (messages_written self.new)
            (kept_bytes self.new) result }
        ensures bounded { OnOk result (least_read self.new ≤ least_read self.old + length bytes.now) }
        ensures counts { CountsDevice result writer.old writer.new }
        ensures unflushed { FlushesNone writer.old writer.new }
    {
        let mut at = 0;
        'messages: loop {
            let fed = self.splitter.feed(&bytes[at..]);
            at += fed.used;
            match fed.state {
                State::More => return Ok(ControlFlow::Next),
                State::Failed => {
                    let why = Refusal::Message(self.number, StreamFault::BelowThree);
                    let status = refuse(alloc, &why, writer)?;
                    return Ok(ControlFlow::Stop(status));
                }
                State::Ready => {
                    if let ControlFlow::Stop(status) = self.answer_message(alloc, writer)? {
                        return Ok(ControlFlow::Stop(status));
                    }
                }
            }
        }
    }
}

impl TextLineCommand for RadioDecoding {
    ghost use Rattle.etcs_run.specs.RadioStream.{stream_answers};

    ghost answers = { λ d. stream_answers (messages_written d) (kept_bytes d) };

    ghost count_bound = { least_read };

    fn answer<W: Write>(
        &mut self,
        alloc: Global,
        number: u64,
        line: &[u8],
        writer: &mut Counted<W>,
    ) -> Result<ControlFlow, RunError> {
        match etcs_digits::decode_to_vec(alloc, trim(line)) {
            Ok(bytes) => self.feed(alloc, bytes.as_slice(), writer),
            Err(why) => match why {
                FromHexError::OutOfMemory => Err(RunError::Memory),
                _ => refuse_line(alloc, number, LineFault::Text(TextError::NotHex), writer),
            },
        }
    }

    fn end<W: Write>(
        &mut self,
        alloc: Global,
        writer: &mut Counted<W>,
    ) -> Result<Status, RunError> {
        if self.splitter.held() == 0 {
            return Ok(Status::Done);
        }
        let why = Refusal::Message(self.number, StreamFault::CutOff);
        refuse(alloc, &why, writer)
    }
}
