// One-axis minimum and maximum calls as definitions, and the rule on the order of axes.
#![tactic(auto)]

ghost use Rattle.min_max_spec.specs.Order.{OrderOfAxes};
ghost use Rattle.min_max_spec.specs.Steps.{CallsAreSteps};
ghost use Rattle.min_max_spec.specs.Rows.{MinMaxSpecRows};

// The rule on the order of axes: one-axis minimum calls, or maximum calls, that sweep each axis once, each with a
// border of its own, leave each cell the least, or greatest, level of its box in the grid that the list starts with,
// each axis extended by its own border, in any order, and each call gets the same number anywhere.
pub fn order_of_axes()
    ensures { OrderOfAxes }
{}

// What a one-axis call promises is one step of such a list: the number that the list gives the call, and the levels
// that the next call reads.
pub fn calls_are_steps()
    ensures { CallsAreSteps }
{}

// Worked rows of this crate's definitions.
pub fn rows()
    ensures { MinMaxSpecRows }
{}
