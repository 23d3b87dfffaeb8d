// Worked sheets: what the definitions of readings and of books give in the examples of docs/EXAMPLES.md.
#![tactic(auto)]

ghost use Rattle.worked_sheets.specs.Statement.{WorkedSheets};

// The contract is the theorem, and the function does nothing.
pub fn worked_sheets()
    ensures { WorkedSheets }
{}
