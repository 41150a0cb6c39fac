// The examples of `border` and `window`.
use border::{BorderMode, BorderModeF64, PadMode};
use examples_print::{end, line, number, space, test};
use std::io::Print;
use window_spec::Origin;

// A padding mode by its place in the enum.
fn mode(rt: &impl Print, m: PadMode) {
    match m {
        PadMode::Constant(_) => line(rt, 0),
        PadMode::Edge => line(rt, 1),
        PadMode::Maximum => line(rt, 2),
        PadMode::Mean => line(rt, 3),
        PadMode::Median => line(rt, 4),
        PadMode::Minimum => line(rt, 5),
        PadMode::Reflect => line(rt, 6),
        PadMode::Symmetric => line(rt, 7),
        PadMode::Wrap => line(rt, 8),
    }
}

pub(crate) fn modes(rt: &impl Print) {
    mode(rt, BorderMode::Mirror.to_pad_mode());
    mode(rt, BorderMode::Reflect.to_pad_mode());
    mode(rt, BorderMode::Nearest.to_pad_mode());
    test(rt, border::bad_constant(BorderMode::Constant(2147483648)));
    test(rt, border::bad_constant(BorderMode::Constant(-2147483647)));
    test(rt, border::bad_constant(BorderMode::Wrap));
    test(
        rt,
        border::bad_constant_f64(BorderModeF64::Constant(1.0 / 0.0)),
    );
    test(rt, border::bad_constant_f64(BorderModeF64::Constant(-0.0)));
    mode(
        rt,
        border::mode_on(
            [
                BorderMode::Nearest,
                BorderMode::Mirror,
                BorderMode::Constant(5),
            ],
            1,
        )
        .to_pad_mode(),
    );
    constants(
        rt,
        [
            BorderMode::Nearest,
            BorderMode::Constant(2147483648),
            BorderMode::Wrap,
        ],
    );
}

// On two axes and on one.
fn constants(rt: &impl Print, modes: [BorderMode; 3]) {
    test(rt, border::bad_constant_any(modes, &[4, 4]));
    test(rt, border::bad_constant_any(modes, &[16]));
}

// The two pads, or 7.
fn pads(rt: &impl Print, o: Origin) {
    match o {
        Origin::Pads(l, r) => {
            number(rt, l);
            space(rt);
            number(rt, r);
            end(rt);
        }
        Origin::Refused => line(rt, 7),
    }
}

pub(crate) fn origins(rt: &impl Print) {
    pads(rt, window::origin_check(4, -2));
    pads(rt, window::origin_check(4, 1));
    pads(rt, window::origin_check(4, -3));
    pads(rt, window::origin_check(4, 2));
    pads(rt, window::origin_check(65, -9223372036854775808));
    pads(rt, window::kernel_origin_check(2, -1));
    test(rt, window::bad_origin(4, -2));
    test(rt, window::bad_origin(4, 2));
    test(rt, window::bad_origin(0, 0));
}
