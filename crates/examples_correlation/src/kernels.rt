// The examples of `kernel3d`, of `direction`, and of `symmetry` where the weights are read from the end.
use examples_print::{level_line, line, test};
use kernel3d::Kernel3d;
use std::io::Print;

pub(crate) fn shapes(rt: &impl Print) {
    let star = Kernel3d::Star.generate();
    test(rt, star[0][1][1]);
    test(rt, star[0][0][1]);
    line(rt, Kernel3d::Star.count());
    line(rt, Kernel3d::Ball.count());
    line(rt, Kernel3d::Full.count());
}

// Weight 0 of 7 8 9 either way, and the class of 2 5 -2 from the end.
pub(crate) fn directions(rt: &impl Print) {
    level_line(rt, direction::weight_at(&[7, 8, 9], false, 0));
    level_line(rt, direction::weight_at(&[7, 8, 9], true, 0));
    line(
        rt,
        codes::code_of(symmetry::directed_state_f64(&[2.0, 5.0, -2.0], true)) as usize,
    );
}
