// The numeric examples of the public comments, run and printed; `stdout` beside src/ has what they must be. Here are
// kernels, padded lines, windows and the judges of correlation, gradients, uniform filters and masks; `examples_lines`
// has the others, and those of the calls that `ndimage` serves are among its requests. The theorems of worked rows are
// called here too, so that no crate can drop its own unnoticed.
#![tactic(auto)]

mod judges;
mod kernels;
mod padded;
mod weighing;

fn rows() {
    examples_spec::worked_examples();
    kernel3d::rows();
    direction::rows();
    symmetry_spec::rows();
    pad_line::rows();
    pad_line_f64::rows();
    correlate_spec::rows();
    correlate_plain::rows();
    correlate_raised_terms::rows();
    correlate_raised::rows();
    correlate_line_f64::rows();
    correlate_judge_spec::rows();
    correlate_axis::rows();
    correlate1d::rows();
    correlate_grid_axes::rows();
    correlate_grid_row::rows();
    correlate_grid::rows();
    gradient_spec::rows();
    gradient::rows();
    uniform_spec::rows();
    uniform::rows();
    median_spec::rows();
    text_spec::rows();
    text_spec::reads_back();
    text_f64::rows();
    text_f64::reads_back_f64();
    words::rows();
    codes::rows();
    ndimage_spec::rows();
    ndimage_arguments::rows();
    min_max_axis::rows();
    pad_copy_axis::rows();
    pad::rows();
}

fn main(rt: HostRuntime) {
    rows();
    kernels::shapes(&rt);
    kernels::directions(&rt);
    padded::pad_conditions(&rt);
    padded::fits(&rt);
    padded::lines(&rt);
    padded::windows(&rt);
    weighing::weights(&rt);
    weighing::judges(&rt);
    weighing::judges_f64(&rt);
    judges::one_cell(&rt);
    judges::gradients(&rt);
    judges::means(&rt);
    judges::masks(&rt);
}
