// The worked examples of the format, proved of the definitions that the contracts cite.
#![tactic(auto)]

ghost use Rattle.examples.specs.Columns.{Columns};
ghost use Rattle.examples.specs.Numbers.{Numbers};

// Numbers: unsigned and signed LEB128.
pub fn numbers()
    ensures { Numbers }
{}

// Columns: runs, literal runs, nulls, differences and booleans.
pub fn columns()
    ensures { Columns }
{}
