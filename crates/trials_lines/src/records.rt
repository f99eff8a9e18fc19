//! Forms as JSON values, which the program never makes: of a telegram and a message with more packets than have room,
//! and of other records than the one that is read.

use crate::forms::{PACKETS, REPORTS};
use etcs_form::{Form, FormError, Step, WriteJson};
use etcs_profile::Authority;
use etcs_radio::{Message, Report};
use etcs_telegram::Telegram;
use json::Writer;
use serde_json::Value;
use std::alloc::Global;
use std::test::Fail;

// The value of a text.
fn value_of(alloc: Global, text: &str) -> Result<Value, Fail> {
    Ok(Value::from_str(alloc, text).map_err(|_| "not JSON")?)
}

// Whether the text is the form of a record that is written as this text again: as a value, and in pieces.
fn comes_back<T: WriteJson>(alloc: Global, text: &str) -> Result<bool, Fail> {
    let record = T::of_form(alloc, &value_of(alloc, text)?)?;
    let form = record.to_form(alloc)?;
    let mut out = Writer::new(Vec::new(alloc));
    record.write_json(&mut out)?;
    let written = form.to_string(alloc).map_err(|_| "no memory")?;
    Ok(written.as_str() == text && out.into_inner().as_slice() == text.as_bytes())
}

// The form of a packet 254 of 8,191 bits with these last members, and a body of `bytes` bytes.
fn longest(alloc: Global, bytes: u32, members: &str) -> Result<String, Fail> {
    let mut body = String::new(alloc);
    'bytes: for _ in 0..bytes {
        body.push_str("c0")?;
    }
    Ok(format!(in alloc; "{{\"body\":\"{body}\",\"l_packet\":8191,\"nid_packet\":254{members}}}")?)
}

// The telegram with the longest packet and all of `PACKETS`.
fn telegram(alloc: Global) -> Result<String, Fail> {
    let mut packets = longest(alloc, 1021, ",\"q_dir\":1")?;
    for packet in PACKETS {
        packets.push(',')?;
        packets.push_str(packet)?;
    }
    Ok(format!(in alloc;
        "{{\"m_dup\":0,\"m_mcount\":255,\"m_version\":33,\"n_pig\":0,\"n_total\":0,\
\"nid_bg\":1,\"nid_c\":1,\"packets\":[{packets}],\"q_link\":1,\"user_bits\":830}}"
    )?)
}

// The position report with the longest packet and all of `REPORTS`.
fn position(alloc: Global) -> Result<String, Fail> {
    let mut packets = longest(alloc, 1022, "")?;
    for packet in REPORTS {
        packets.push(',')?;
        packets.push_str(packet)?;
    }
    Ok(format!(in alloc;
        "{{\"nid_engine\":1,\"nid_message\":136,\"packets\":[{packets}],\"t_train\":200}}"
    )?)
}

#[test]
fn each_packet_is_written_as_a_value(rt: HostRuntime) -> Result<(), Fail> {
    let alloc = rt.alloc();
    let telegram = telegram(alloc)?;
    assert!(rt; comes_back::<Telegram>(alloc, telegram.as_str())?);
    let message = position(alloc)?;
    assert!(rt; comes_back::<Message>(alloc, message.as_str())?);
    Ok(())
}

// Whether this is the fault of the text as a form of the record, at this key, or at the whole if the key is
// empty.
fn has_fault<T: Form>(
    alloc: Global,
    text: &str,
    why: &str,
    key: &'static str,
) -> Result<bool, Fail> {
    let (found, path) = match T::of_form(alloc, &value_of(alloc, text)?) {
        Ok(_) | Err(FormError::Memory) => return Ok(false),
        Err(FormError::Missing(path)) => ("missing", path),
        Err(FormError::Unknown(path)) => ("unknown", path),
        Err(FormError::Kind(path)) => ("kind", path),
        Err(FormError::Range(path)) => ("range", path),
    };
    if key.is_empty() {
        return Ok(found == why && path.is_empty());
    }
    Ok(found == why && path.as_slice() == [Step::Key(key)].as_slice())
}

/// Forms that are no authority, and no position report either.
const OTHERS: [(&str, &str, &str); 5] = [
    ("[12]", "kind", ""),
    ("{\"x\":1}", "missing", "nid_packet"),
    ("{\"nid_packet\":\"12\",\"x\":1}", "kind", "nid_packet"),
    ("{\"nid_packet\":21,\"x\":1}", "range", "nid_packet"),
    ("{\"nid_packet\":255,\"x\":1}", "range", "nid_packet"),
];

#[test]
fn a_packet_looks_at_its_number_first(rt: HostRuntime) -> Result<(), Fail> {
    let alloc = rt.alloc();
    for (text, why, key) in OTHERS {
        assert!(rt; has_fault::<Authority>(alloc, text, why, key)?, "{text}");
        assert!(rt; has_fault::<Report>(alloc, text, why, key)?, "{text}");
    }
    let (later, unknown) = ("{\"nid_packet\":15,\"v_main\":1}", "unknown");
    assert!(rt; has_fault::<Authority>(alloc, later, unknown, "")?);
    let (other, unknown) = ("{\"nid_packet\":0,\"prv_nid_c\":1}", "unknown");
    assert!(rt; has_fault::<Report>(alloc, other, unknown, "")?);
    Ok(())
}
