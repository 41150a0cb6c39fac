// Cells and weights that are raised above zero, and their products.
#![tactic(auto)]

ghost use Rattle.correlate_raised_terms.specs.Rows.{CorrelateRaisedTermsRows};

mod narrow;
mod terms;

pub use narrow::raise_of;
pub use terms::{Four, four_terms, raise_cells, raised_four, raised_term, raised_weight};

// Worked rows of this crate's definitions.
pub fn rows()
    ensures { CorrelateRaisedTermsRows }
{}
