//! The lines of JSON for documents: a verdict without and with findings, and each kind of refusal.

use etcs_form::{Outcome, findings_json};
use std::test::Fail;

#[test]
fn each_document_has_its_line(rt: HostRuntime) -> Result<(), Fail> {
    let rows = [
        (
            "{\"groups\":[],\"messages\":[]}",
            Outcome::Yes,
            "{\"verdict\":\"yes\",\"groups\":0,\"messages\":0,\"findings\":[]}\n",
        ),
        (
            "{\"groups\":[{\"balises\":[\"a1137f802000ffffffffffffffffffffffffffffffffffffffffc0\"]}],\"messages\":[]}",
            Outcome::No,
            "{\"verdict\":\"no\",\"groups\":1,\"messages\":0,\"findings\":[{\"rule\":\"F1\",\"name\":\"position wrong\",\"group\":0,\"balise\":0},{\"rule\":\"F2\",\"name\":\"total wrong\",\"group\":0,\"balise\":0},{\"rule\":\"F4\",\"name\":\"mark points outside\",\"group\":0,\"balise\":0}]}\n",
        ),
        (
            "",
            Outcome::Refused,
            "{\"verdict\":\"refused\",\"reason\":\"not JSON\"}\n",
        ),
        (
            "{\"groups\":[{\"balises\":[0]}],\"messages\":[]}",
            Outcome::Refused,
            "{\"verdict\":\"refused\",\"reason\":\"kind\",\"path\":[\"groups\",0,\"balises\",0]}\n",
        ),
        (
            "{\"groups\":[{\"balises\":[]}],\"messages\":[]}",
            Outcome::Refused,
            "{\"verdict\":\"refused\",\"reason\":\"count\",\"group\":0}\n",
        ),
        (
            "{\"groups\":[{\"aspects\":[]}],\"messages\":[]}",
            Outcome::Refused,
            "{\"verdict\":\"refused\",\"reason\":\"aspects\",\"group\":0}\n",
        ),
        (
            "{\"groups\":[{\"aspects\":[{\"balises\":[\"00\"]}]}],\"messages\":[]}",
            Outcome::Refused,
            "{\"verdict\":\"refused\",\"reason\":\"wrong size\",\"group\":0,\"aspect\":0,\"balise\":0}\n",
        ),
        (
            "{\"groups\":[{\"balises\":[\"a101ff802000ffffffffffffffffffffffffffffffffffffffffc0\"]}],\"messages\":[]}",
            Outcome::Refused,
            "{\"verdict\":\"refused\",\"reason\":\"spare\",\"group\":0,\"balise\":0,\"at\":15,\"end\":17}\n",
        ),
        (
            "{\"groups\":[],\"messages\":[\"0\"]}",
            Outcome::Refused,
            "{\"verdict\":\"refused\",\"reason\":\"not hexadecimal\",\"message\":0}\n",
        ),
    ];
    for (document, outcome, line) in rows {
        let found = findings_json(rt.alloc(), document.as_bytes())?;
        assert!(rt; found.1 == outcome);
        assert!(rt; found.0.as_slice() == line.as_bytes());
    }
    Ok(())
}
