//! The laws of task files. Each function does nothing: its contract is the law.
ghost use Rattle.pfair_file.specs.Documents.{LogsAreInFileOrder, FirstTableIsAtFault};

/// Before it is closed, the log of a processor has the entries of the tables that name the
/// processor, in the order of the file, and nothing else.
#[tactic(auto, using(crate::proofs::TableFacts::in_file_order))]
pub fn logs_are_in_file_order()
    ensures { LogsAreInFileOrder }
{}

/// The tables of a file have a fault exactly if one of them has it, after tables without one:
/// what is reported is the fault of the first table that has one.
pub fn first_table_is_at_fault()
    ensures { FirstTableIsAtFault }
{}
