//! Verdicts on tables, with the rows of findings. The findings are those of `check` about the same groups in a document.

use etcs_table::Headings;
use etcs_table_check::{check_table, report};
use std::alloc::Global;
use std::test::Fail;

// A balise without packets, and a pair of balises that are duplicates of each other.
const SINGLE: &str = "a1007f802000ffffffffffffffffffffffffffffffffffffffffc0";

const FIRST: &str = "a102ff802000ffffffffffffffffffffffffffffffffffffffffc0";

const SECOND: &str = "a1137f802000ffffffffffffffffffffffffffffffffffffffffc0";

// The report on a table, or why it is refused.
fn answer(alloc: Global, table: &str) -> Result<String, Fail> {
    match check_table(alloc, &Headings::usual(), table.as_bytes()) {
        Ok(verdict) => Ok(report(alloc, &verdict)?),
        Err(error) => Ok(format!(in alloc; "{error}")?),
    }
}

#[test]
fn a_sound_table_has_no_finding(rt: HostRuntime) -> Result<(), Fail> {
    let alloc = rt.alloc();
    let table = format!(in alloc; "group,telegram\nA,{SINGLE}\n")?;
    let text = answer(alloc, table.as_str())?;
    assert_eq!(rt; text.as_str(), "yes: groups 1, telegrams 1\n");
    let table = format!(in alloc; "group;balise;telegram\nA;1;{SECOND}\n;;\nA;0;{FIRST}\n")?;
    let text = answer(alloc, table.as_str())?;
    assert_eq!(rt; text.as_str(), "yes: groups 1, telegrams 2\n");
    Ok(())
}

#[test]
fn a_finding_names_the_row_of_its_balise_or_the_first_of_its_group(
    rt: HostRuntime,
) -> Result<(), Fail> {
    let alloc = rt.alloc();
    let table = format!(in alloc;
        "group,aspect,telegram\nA,,{FIRST}\nB,,{SINGLE}\nB,,{FIRST}\nC,red,{SINGLE}\nC,green,{SINGLE}\n"
    )?;
    let text = answer(alloc, table.as_str())?;
    assert_eq!(rt;
        text.as_str(),
        "no: findings 7\n\
        F2 row 2: total wrong\n\
        F4 row 2: mark points outside\n\
        F1 row 4: position wrong\n\
        F2 row 3: total wrong\n\
        F4 row 4: mark points outside\n\
        F14 row 3: identity used before\n\
        F14 row 5: identity used before\n"
    );
    Ok(())
}

#[test]
fn a_finding_in_all_aspects_names_each_row_once(rt: HostRuntime) -> Result<(), Fail> {
    let alloc = rt.alloc();
    let table = format!(in alloc;
        "group,balise,aspect,telegram\nA,1,red,{SECOND}\nA,0,*,{FIRST}\nA,1,green,{SINGLE}\n"
    )?;
    let text = answer(alloc, table.as_str())?;
    assert_eq!(rt;
        text.as_str(),
        "no: findings 5\n\
        F1 row 4 aspect 1: position wrong\n\
        F2 row 4 aspect 1: total wrong\n\
        F5 row 3 aspect 1: mark not answered\n\
        F15 row 4 aspect 1: marks differ between aspects\n\
        F16 rows 2, 4: aspects not told apart\n"
    );
    Ok(())
}

#[test]
fn the_first_refused_row_of_the_table_is_named(rt: HostRuntime) -> Result<(), Fail> {
    let alloc = rt.alloc();
    let table = format!(in alloc; "group,telegram\nA,{SINGLE}\nB,00\nA,1\n")?;
    let text = answer(alloc, table.as_str())?;
    assert_eq!(rt; text.as_str(), "row 3: wrong size");
    let table = format!(in alloc;
        "group,aspect,telegram\nA,red,{SINGLE}\nA,,{SINGLE}\nA,green,1\n"
    )?;
    let text = answer(alloc, table.as_str())?;
    assert_eq!(rt; text.as_str(), "row 4: not hexadecimal");
    let text = answer(alloc, "group,telegram\n,1\nB,00\n")?;
    assert_eq!(rt; text.as_str(), "row 2: no group");
    Ok(())
}
