// What one level out of a line of whole levels is: what padding's modes Maximum, Minimum, Mean and Median fill a lane
// with. Definitions, laws and rows; the code is in `statistics`.
#![tactic(auto)]

ghost use Rattle.statistics_spec.specs.Rows.{StatisticsSpecRows};

// Worked rows of this crate's definitions.
pub fn rows()
    ensures { StatisticsSpecRows }
{}
