// The rims of a padded grid under the modes that copy cells: Edge, Reflect, Symmetric and Wrap.
#![tactic(auto)]

mod runs;

pub use runs::copy_axes;
