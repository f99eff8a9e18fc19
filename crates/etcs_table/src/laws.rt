//! Tables that are worked out: what the definition makes of them. Each law is the contract of a function that does
//! nothing.

ghost use Rattle.etcs_table.specs.Laws.{WorkedFaults, WorkedTables};
ghost use Rattle.etcs_table.specs.RowLaws.{NoRowIsLeftOut};

/// Three tables have the groups and aspects that a reader expects.
pub fn worked_tables()
    ensures { WorkedTables }
{}

/// A table with each fault is refused for this fault, at the row that has it.
pub fn worked_faults()
    ensures { WorkedFaults }
{}

/// No row is left out: each is in one group, and in each aspect that it belongs to, once.
pub fn no_row_is_left_out()
    ensures { NoRowIsLeftOut }
{}
