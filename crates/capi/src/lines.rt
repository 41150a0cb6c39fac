// The calls along one axis.
ghost use Rattle.std.specs.Prelude.{true, false, length};
ghost use Rattle.std.specs.Int.Signed.{le_z};
ghost use Rattle.numbers.specs.Order.{at_least};
ghost use Rattle.numbers.specs.Refusal.{Answers};
ghost use Rattle.border.specs.Modes.{border_of, border_of_f64};
ghost use Rattle.min_max_spec.specs.Call.{call_judged};
ghost use Rattle.min_max_spec.specs.Run.{answer_of};
ghost use Rattle.min_max_judge.specs.Judge.{call_of};
ghost use Rattle.correlate_spec.specs.Correlated.{correlate1d_z, correlate1d_f};
ghost use Rattle.correlate_spec.specs.Convolved.{convolve1d_z, convolve1d_f};
ghost use Rattle.correlate_judge_spec.specs.Judge.{correlate_judged, correlate_judged_f};
ghost use Rattle.uniform_spec.specs.Uniform.{uniform1d};
ghost use Rattle.uniform_spec.specs.Judge.{uniform1d_judged};
ghost use Rattle.codes.specs.Codes.{mode_of, mode_of_f64, unknown_border, coded};

// The sums of each window times the weights, along an axis; the call `correlate1d`.
//
// * `data` - the cells of the grid, in row-major order.
// * `shape` - the length of each axis.
// * `weights` - the weights.
// * `axis` - the axis along which the windows lie.
// * `code`, `constant` - the border: 0 constant, 1 mirror, 2 nearest, 3 reflect, 4 wrap.
// * `origin` - how far the window is moved.
// * `out` - as long as data; kept as it was where the call is refused.
//
// Refuses: 1 (shape), 2 (length), 3 (level), 5 (kernel), 6 (weight), 7 (origin), 8 (axis), 9 (constant), 11 (reach),
// 100 (unknown code). Of 1 2 3 with the weights 1 2 3 under nearest: 9 14 17.
#[unsafe(no_mangle)]
pub extern "C" fn suvvokal_correlate1d(
    data: &[i64],
    shape: &[usize],
    weights: &[i64],
    axis: usize,
    code: u8,
    constant: i64,
    origin: isize,
    out: &mut [i64],
) -> u8
    ensures { Answers (coded (correlate_judged false (border_of (mode_of code constant)) origin
        weights.now shape.now axis «data».now (length out.old))
        (unknown_border code)) (correlate1d_z (border_of (mode_of code constant)) origin weights.now
        shape.now axis «data».now) out.old result out.new }
{
    let mode = codes::mode_of(code, constant);
    if 4 < code {
        let judged = correlate_judge::judge_correlate(
            data,
            shape,
            weights,
            axis,
            mode,
            origin,
            false,
            out.len(),
        );
        return codes::unknown_after(numbers::answer_number(judged));
    }
    numbers::answer_number(correlate1d::correlate1d(data, shape, weights, axis, mode, origin, out))
}

// As `suvvokal_correlate1d` with the weights reversed and the origin changed; the call `convolve1d`.
// Of 1 2 3 with the weights 1 2 3 under nearest: 7 10 15.
#[unsafe(no_mangle)]
pub extern "C" fn suvvokal_convolve1d(
    data: &[i64],
    shape: &[usize],
    weights: &[i64],
    axis: usize,
    code: u8,
    constant: i64,
    origin: isize,
    out: &mut [i64],
) -> u8
    ensures { Answers (coded (correlate_judged true (border_of (mode_of code constant)) origin
        weights.now shape.now axis «data».now (length out.old))
        (unknown_border code)) (convolve1d_z (border_of (mode_of code constant)) origin weights.now
        shape.now axis «data».now) out.old result out.new }
{
    let mode = codes::mode_of(code, constant);
    if 4 < code {
        let judged = correlate_judge::judge_correlate(
            data,
            shape,
            weights,
            axis,
            mode,
            origin,
            true,
            out.len(),
        );
        return codes::unknown_after(numbers::answer_number(judged));
    }
    numbers::answer_number(correlate1d::convolve1d(data, shape, weights, axis, mode, origin, out))
}

// As `suvvokal_correlate1d`, of floats; the call `correlate1d_f64`. 12 is never given.
// Of 0 0 1 with the weights 1, 2, 1 + 2^-52 under constant 0 cell 1 is exactly 1.
#[unsafe(no_mangle)]
pub extern "C" fn suvvokal_correlate1d_f64(
    data: &[f64],
    shape: &[usize],
    weights: &[f64],
    axis: usize,
    code: u8,
    constant: f64,
    origin: isize,
    out: &mut [f64],
) -> u8
    ensures { Answers (coded (correlate_judged_f false (border_of_f64 (mode_of_f64 code constant)) origin
        weights.now shape.now axis «data».now (length out.old))
        (unknown_border code)) (correlate1d_f (border_of_f64 (mode_of_f64 code constant)) origin weights.now
        shape.now axis «data».now) out.old result out.new }
{
    let mode = codes::mode_of_f64(code, constant);
    if 4 < code {
        let judged = correlate_judge::judge_correlate_f64(
            data,
            shape,
            weights,
            axis,
            mode,
            origin,
            false,
            out.len(),
        );
        return codes::unknown_after(numbers::answer_number(judged));
    }
    numbers::answer_number(correlate1d_f64::correlate1d_f64(
        data, shape, weights, axis, mode, origin, out,
    ))
}

// As `suvvokal_convolve1d`, of floats; the call `convolve1d_f64`. 12 is never given.
// Of 0 0 1 with the weights 1, 2, 1 + 2^-52 under constant 0 cell 1 is 1 + 2^-52.
#[unsafe(no_mangle)]
pub extern "C" fn suvvokal_convolve1d_f64(
    data: &[f64],
    shape: &[usize],
    weights: &[f64],
    axis: usize,
    code: u8,
    constant: f64,
    origin: isize,
    out: &mut [f64],
) -> u8
    ensures { Answers (coded (correlate_judged_f true (border_of_f64 (mode_of_f64 code constant)) origin
        weights.now shape.now axis «data».now (length out.old))
        (unknown_border code)) (convolve1d_f (border_of_f64 (mode_of_f64 code constant)) origin weights.now
        shape.now axis «data».now) out.old result out.new }
{
    let mode = codes::mode_of_f64(code, constant);
    if 4 < code {
        let judged = correlate_judge::judge_correlate_f64(
            data,
            shape,
            weights,
            axis,
            mode,
            origin,
            true,
            out.len(),
        );
        return codes::unknown_after(numbers::answer_number(judged));
    }
    numbers::answer_number(correlate1d_f64::convolve1d_f64(
        data, shape, weights, axis, mode, origin, out,
    ))
}

// The mean of each window along one axis, cut toward zero; the call `uniform_filter1d`.
//
// * `data` - the cells of the grid, in row-major order.
// * `shape` - the length of each axis.
// * `size` - the length of the window.
// * `axis` - the axis along which the windows lie.
// * `code`, `constant` - the border: 0 constant, 1 mirror, 2 nearest, 3 reflect, 4 wrap.
// * `out` - as long as data; kept as it was where the call is refused.
//
// Refuses: 1 (shape), 2 (length), 3 (level), 5 (kernel), 8 (axis), 9 (constant), 11 (reach), 100 (unknown code). Of -1
// -2 -4 with size 3 under constant 0: -1 -2 -2.
#[unsafe(no_mangle)]
pub extern "C" fn suvvokal_uniform_filter1d(
    data: &[i64],
    shape: &[usize],
    size: usize,
    axis: usize,
    code: u8,
    constant: i64,
    out: &mut [i64],
) -> u8
    ensures { Answers (coded (uniform1d_judged (border_of (mode_of code constant)) size shape.now axis
        «data».now (length out.old)) (unknown_border code))
        (uniform1d (border_of (mode_of code constant)) size shape.now axis «data».now)
        out.old result out.new }
{
    let mode = codes::mode_of(code, constant);
    if 4 < code {
        let judged = uniform::judge_uniform1d(data, shape, size, axis, mode, out.len());
        return codes::unknown_after(numbers::answer_number(judged));
    }
    numbers::answer_number(uniform::uniform_filter1d(data, shape, size, axis, mode, out))
}

// The least level of each window along one axis; the call `minimum_filter1d`.
//
// * `data` - the cells of the grid, in row-major order.
// * `shape` - the length of each axis.
// * `size` - the length of the window.
// * `axis` - the axis that is swept.
// * `code`, `constant` - the border: 0 constant, 1 mirror, 2 nearest, 3 reflect, 4 wrap.
// * `origin` - how far the window is moved.
// * `out` - as long as data; kept as it was where the call is refused.
//
// Refuses: 1 (shape), 2 (length), 3 (level), 5 (kernel), 7 (origin), 8 (axis), 9 (constant), 11 (reach), 100 (unknown
// code). Of 2 1 4 3 5 with size 3 under reflect: 1 1 1 3 3.
#[unsafe(no_mangle)]
pub extern "C" fn suvvokal_minimum_filter1d(
    data: &[i64],
    shape: &[usize],
    size: usize,
    axis: usize,
    code: u8,
    constant: i64,
    origin: isize,
    out: &mut [i64],
) -> u8
    ensures { Answers (coded (call_judged «data».now
        (call_of shape.now size axis (mode_of code constant) origin out.old)) (unknown_border code))
        (answer_of le_z «data».now (call_of shape.now size axis (mode_of code constant) origin
        out.old)) out.old result out.new }
{
    let mode = codes::mode_of(code, constant);
    if 4 < code {
        let judged = min_max_judge::judge_call(data, shape, size, axis, mode, origin, out);
        return codes::unknown_after(numbers::answer_number(judged));
    }
    numbers::answer_number(min_max::minimum_filter1d(data, shape, size, axis, mode, origin, out))
}

// As `suvvokal_minimum_filter1d`, with the greatest level; the call `maximum_filter1d`. Of 2 1 4 3 5 with size 3 under
// reflect: 2 4 4 5 5.
#[unsafe(no_mangle)]
pub extern "C" fn suvvokal_maximum_filter1d(
    data: &[i64],
    shape: &[usize],
    size: usize,
    axis: usize,
    code: u8,
    constant: i64,
    origin: isize,
    out: &mut [i64],
) -> u8
    ensures { Answers (coded (call_judged «data».now
        (call_of shape.now size axis (mode_of code constant) origin out.old)) (unknown_border code))
        (answer_of at_least «data».now (call_of shape.now size axis (mode_of code constant) origin
        out.old)) out.old result out.new }
{
    let mode = codes::mode_of(code, constant);
    if 4 < code {
        let judged = min_max_judge::judge_call(data, shape, size, axis, mode, origin, out);
        return codes::unknown_after(numbers::answer_number(judged));
    }
    numbers::answer_number(min_max::maximum_filter1d(data, shape, size, axis, mode, origin, out))
}
