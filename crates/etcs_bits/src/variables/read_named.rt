//! How a variable is read that names one of a few values.

// Reads a number of `width` bits, and returns the value that has it. Any other number has the fault.
macro_rules! read_named {
    ($cur:ident, $width:literal, $named:ident, $fault:ident) => {{
        let at = $cur.at();
        let n = $cur.take($width)?;
        match $named::new(n as u32) {
            Some(value) => Ok(value),
            None => Err(refused(at, $cur, FaultKind::$fault)),
        }
    }};
}

pub(crate) use read_named;
