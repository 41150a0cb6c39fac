// The numeric examples of the public comments, run and printed; `stdout` beside src/ has what they must be. Here are
// the ground floor, lines and the judge of minimum and maximum; `examples_correlation` has the others, and those of the
// calls that `ndimage` serves are among its requests. The theorems of worked rows and the rule on the order of axes are
// called here too, so that no crate can drop its own unnoticed.
#![tactic(auto)]

mod arrays;
mod averages;
mod borders;
mod extremes;
mod filters;

fn rows() {
    numbers::rows();
    array_spec::rows();
    lanes::rows();
    array_levels::rows();
    border::rows();
    window_spec::rows();
    min_max_ring::rows();
    statistics_spec::rows();
    statistics_mean::rows();
    pad_spec::rows();
    pad_middle::rows();
    min_max_spec::rows();
    min_max_spec::order_of_axes();
    min_max_spec::calls_are_steps();
    min_max_judge::rows();
    min_max_axis::rows();
    uniform_axis::rows();
    codes_cells::rows();
}

fn main(rt: HostRuntime) {
    rows();
    arrays::shapes(&rt);
    arrays::limits(&rt);
    arrays::large_shapes(&rt);
    arrays::level_conditions(&rt);
    arrays::levels_outside(&rt);
    arrays::judges(&rt);
    arrays::copies(&rt);
    arrays::read_lanes(&rt);
    borders::modes(&rt);
    borders::origins(&rt);
    extremes::rings(&rt);
    extremes::lines(&rt);
    averages::lines(&rt);
    averages::odd_lines(&rt);
    filters::judges(&rt);
}
