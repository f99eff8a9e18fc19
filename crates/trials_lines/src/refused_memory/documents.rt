//! Documents of lines, and forms of records: their result is the usual one, or memory ran out.

use super::{Answer, expect_answers};
use etcs_form::{
    Form, FormError, JsonError, JsonTree, LineError, LineFault, ParsedJson, Refusal, WriteJson,
    check_in_order, check_text, read_line, refusal_text, report, report_counts,
};
use etcs_radio::Message;
use etcs_telegram::{Telegram, TextError};
use json::{Scratch, Writer};
use serde_json::Value;
use std::alloc::Global;

/// The form of a lone linked balise without packets.
const TELEGRAM_FORM: &str =
    "{\"m_dup\":0,\"m_mcount\":255,\"m_version\":33,\"n_pig\":0,\"n_total\":0,\
\"nid_bg\":1,\"nid_c\":1,\"packets\":[],\"q_link\":1,\"user_bits\":210}";

/// The form of a movement authority of 1,000 m for one train, at 1 s.
const MESSAGE_FORM: &str = "{\"m_ack\":0,\"nid_bg\":1,\"nid_c\":1,\"nid_message\":3,\
\"packets\":[{\"end_speed\":0,\"end_timeout\":1023,\"l_endsection\":1000,\"nid_packet\":15,\
\"q_dir\":1,\"q_scale\":1,\"sections\":[]}],\"t_train\":100}";

/// Two groups with the same identity, and a group with a text that is not a telegram.
const USED: &str = "{\"groups\":[\
{\"balises\":[\"a1007f802000ffffffffffffffffffffffffffffffffffffffffc0\"]},\
{\"balises\":[\"a1007f802000ffffffffffffffffffffffffffffffffffffffffc0\"]}],\"messages\":[]}";

const WRONG_SIZE: &str = "{\"groups\":[{\"balises\":[\"00\"]}],\"messages\":[]}";

const TOLD_OF_USED: &str = "no: findings 1\nF14 group 1: identity used before\n";

fn checked(alloc: Global) -> Answer {
    let line = check_in_order(alloc, USED.as_bytes())?;
    Ok(line.groups == 2 && line.messages == 0 && line.findings.len() == 1)
}

// The line itself is kept, and the report on it is made.
fn told(alloc: Global) -> Answer {
    let verdict = check_text(alloc, USED.as_bytes())?;
    let text = report(alloc, &verdict.line, verdict.findings.as_slice())?;
    let again = report_counts(alloc, 2, 0, verdict.findings.as_slice())?;
    Ok(text.as_str() == TOLD_OF_USED && again.as_str() == TOLD_OF_USED && !verdict.is_yes())
}

fn read(alloc: Global) -> Answer {
    let line = read_line(alloc, USED.as_bytes())?;
    Ok(line.groups.len() == 2 && line.messages.is_empty())
}

fn refused(alloc: Global) -> Answer {
    match check_in_order(alloc, WRONG_SIZE.as_bytes()) {
        Ok(_) => Ok(false),
        Err(LineError::Memory) => Err(LineError::Memory),
        Err(why) => Ok(matches!(why, LineError::Telegram(0, 0, TextError::WrongSize))),
    }
}

fn refusal(alloc: Global) -> Answer {
    let text = refusal_text(alloc, &Refusal::Line(7, LineFault::Json))?;
    Ok(text.as_str() == "refused: line 7: not JSON\n")
}

// The telegram whose form the tree is.
fn telegram_of<T: JsonTree>(alloc: Global, tree: &T) -> Result<Telegram, FormError> {
    Telegram::read_json(alloc, &tree)
}

// Whether the record of a text is written as that text.
fn text(alloc: Global) -> Answer {
    let mut scratch = Scratch::new(alloc);
    let json = match ParsedJson::read(alloc, TELEGRAM_FORM, &mut scratch) {
        Ok(json) => json,
        Err(JsonError::Memory) => return Err(LineError::Memory),
        Err(JsonError::NotJson) => return Ok(false),
    };
    let record = telegram_of(alloc, json.root())?;
    let mut out = Writer::new(Vec::new(alloc));
    record.write_json(&mut out)?;
    Ok(out.into_inner().as_slice() == TELEGRAM_FORM.as_bytes())
}

// The form of a record, read as a value and written as a value. Memory alone can be lacking: the text is JSON.
fn form(alloc: Global) -> Answer {
    let value = Value::from_str(alloc, MESSAGE_FORM).map_err(|_| LineError::Memory)?;
    let written = Message::of_form(alloc, &value)?.to_form(alloc)?;
    let text = written.to_string(alloc).map_err(|_| LineError::Memory)?;
    Ok(text.as_str() == MESSAGE_FORM)
}

pub fn answers(alloc: Global) -> [Answer; 7] {
    [
        checked(alloc),
        told(alloc),
        read(alloc),
        refused(alloc),
        refusal(alloc),
        text(alloc),
        form(alloc),
    ]
}

#[test]
fn documents_and_forms_are_answered_or_memory_ran_out(rt: HostRuntime) {
    expect_answers(&rt, &answers(rt.alloc()));
}
