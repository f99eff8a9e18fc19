//! The macros `each_allowed!`, `put_each!`, `scan_each!` and `each_same!`: what a record does field by field, in the
//! order of the fields named.

// Whether the number of each field is allowed.
macro_rules! each_allowed {
    ($record:ident; $($field:ident),+) => { $($record.$field.is_allowed())&&+ };
}

// Appends the bits of each field.
macro_rules! put_each {
    ($record:ident, $out:ident; $last:ident) => { $record.$last.put($out) };
    ($record:ident, $out:ident; $first:ident, $($more:ident),+) => {{
        $record.$first.put($out)?;
        put_each!($record, $out; $($more),+)
    }};
}

// Reads each field at the cursor.
macro_rules! scan_each {
    ($record:ident, $alloc:ident, $cur:ident; $($field:ident),+) => {
        Ok($record { $($field: Layout::scan($alloc, $cur)?),+ })
    };
}

// Whether each field has the same value in both records.
macro_rules! each_same {
    ($this:ident, $that:ident; $($field:ident),+) => { $($this.$field.same(&$that.$field))&&+ };
}

pub(crate) use each_allowed;
pub(crate) use each_same;
pub(crate) use put_each;
pub(crate) use scan_each;
