//! Rows of findings and reports that are worked out, and what a verdict is about. Each law is the contract of a function
//! that does nothing.

ghost use Rattle.etcs_table_check.specs.Laws.{AspectsHaveBalises, LineIsOfTable, TableIsBothSteps, WorkedReports, WorkedRows};

/// Findings about a balise, an aspect and a group have the rows that a reader expects.
pub fn worked_rows()
    ensures { WorkedRows }
{}

/// A yes and two findings have the texts that a reader expects.
pub fn worked_reports()
    ensures { WorkedReports }
{}

/// The groups of a table are those of its entries, and a fault of its entries is the fault of the table.
pub fn table_is_both_steps()
    ensures { TableIsBothSteps }
{}

/// The line that is checked has the telegrams of the groups that the table stands for.
pub fn line_is_of_table()
    ensures { LineIsOfTable }
{}

/// Groups without a fault have one to eight balises in each aspect, as many as in the first.
pub fn aspects_have_balises()
    ensures { AspectsHaveBalises }
{}
