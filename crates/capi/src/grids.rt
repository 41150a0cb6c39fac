// The calls on whole grids; those that make several passes are lent a second grid.
ghost use Rattle.std.specs.Prelude.{true, false, [], ◌∷◌, pos, length};
ghost use Rattle.std.specs.Int.Signed.{le_z};
ghost use Rattle.numbers.specs.Order.{at_least};
ghost use Rattle.numbers.specs.Refusal.{Answers, ScratchAnswers};
ghost use Rattle.border.specs.Axes.{borders_of};
ghost use Rattle.border.specs.Modes.{border_of};
ghost use Rattle.min_max_judge.specs.Judge.{grid_call_of, filter_judged};
ghost use Rattle.correlate_spec.specs.Kernel.{correlate_z, convolve_z};
ghost use Rattle.correlate_judge_spec.specs.KernelJudge.{kernel_judged};
ghost use Rattle.gradient_spec.specs.Gradient.{prewitt_weights, sobel_weights, gradient as gradientOf};
ghost use Rattle.gradient_spec.specs.Judge.{gradient_judged};
ghost use Rattle.uniform_spec.specs.Uniform.{uniform as uniformOf};
ghost use Rattle.uniform_spec.specs.Judge.{uniform_judged};
ghost use Rattle.min_max_spec.specs.Filters.{filter_answer};
ghost use Rattle.codes.specs.Codes.{mode_of, unknown_border, coded};
ghost use Rattle.codes_cells.specs.Borders.{modes_of, unknown_borders};

// The sums of each window times the weights of a grid kernel; the call `correlate`.
//
// * `data` - the cells of the grid, in row-major order.
// * `shape` - the length of each axis.
// * `weights` - the kernel's weights, in row-major order.
// * `sides` - the length of each of the kernel's axes, all equal.
// * `code`, `constant` - the border: 0 constant, 1 mirror, 2 nearest, 3 reflect, 4 wrap.
// * `origin` - how far the window is moved along every axis.
// * `out` - as long as data; kept as it was where the call is refused.
//
// Refuses: 1 (shape), 2 (length), 3 (level), 5 (kernel), 6 (weight), 7 (origin), 9 (constant), 11 (reach), 100 (unknown
// code). Of the rows 1 2 / 3 4 with the kernel 1 0 / 0 10 under nearest: 11 21 / 31 41.
#[unsafe(no_mangle)]
pub extern "C" fn suvvokal_correlate(
    data: &[i64],
    shape: &[usize],
    weights: &[i64],
    sides: &[usize],
    code: u8,
    constant: i64,
    origin: isize,
    out: &mut [i64],
) -> u8
    ensures { Answers (coded (kernel_judged false (border_of (mode_of code constant)) origin sides.now
        weights.now shape.now «data».now (length out.old))
        (unknown_border code)) (correlate_z (border_of (mode_of code constant)) origin sides.now
        weights.now shape.now «data».now) out.old result out.new }
{
    let mode = codes::mode_of(code, constant);
    if 4 < code {
        let judged = correlate_judge::judge_kernel(
            data,
            shape,
            weights,
            sides,
            mode,
            origin,
            false,
            out.len(),
        );
        return codes::unknown_after(numbers::answer_number(judged));
    }
    numbers::answer_number(correlate::correlate(data, shape, weights, sides, mode, origin, out))
}

// As `suvvokal_correlate` with the kernel reversed along every axis and the origin changed; the call `convolve`.
// Of the rows 1 2 / 3 4 with the kernel 1 0 / 0 10 under nearest: 14 24 / 34 44.
#[unsafe(no_mangle)]
pub extern "C" fn suvvokal_convolve(
    data: &[i64],
    shape: &[usize],
    weights: &[i64],
    sides: &[usize],
    code: u8,
    constant: i64,
    origin: isize,
    out: &mut [i64],
) -> u8
    ensures { Answers (coded (kernel_judged true (border_of (mode_of code constant)) origin sides.now
        weights.now shape.now «data».now (length out.old))
        (unknown_border code)) (convolve_z (border_of (mode_of code constant)) origin sides.now
        weights.now shape.now «data».now) out.old result out.new }
{
    let mode = codes::mode_of(code, constant);
    if 4 < code {
        let judged = correlate_judge::judge_kernel(
            data,
            shape,
            weights,
            sides,
            mode,
            origin,
            true,
            out.len(),
        );
        return codes::unknown_after(numbers::answer_number(judged));
    }
    numbers::answer_number(correlate::convolve(data, shape, weights, sides, mode, origin, out))
}

// The differences along an axis, smoothed along every other axis by 1 1 1; the call `prewitt`.
//
// * `data` - the cells of the grid, in row-major order.
// * `shape` - the length of each axis.
// * `axis` - the axis of the difference.
// * `codes`, `constants` - the border of each axis: 0 constant, 1 mirror, 2 nearest, 3 reflect, 4 wrap; those past the
//   axis count are not read, a missing code is unknown and a missing constant 0.
// * `second` - a second grid as long as data; an accepted call leaves zeros in it.
// * `out` - as long as data. A refused call leaves both lent grids as they were.
//
// Refuses: 1 (shape), 2 (length), 3 (level), 8 (axis), 9 (constant), 11 (reach), 100 (unknown code). Of the rows 1 2 /
// 3 4 along axis 0 under constant 0: 7 7 / -3 -3.
#[unsafe(no_mangle)]
pub extern "C" fn suvvokal_prewitt(
    data: &[i64],
    shape: &[usize],
    axis: usize,
    codes: &[u8],
    constants: &[i64],
    second: &mut [i64],
    out: &mut [i64],
) -> u8
    ensures { ScratchAnswers (pos 0) (coded
        (gradient_judged prewitt_weights (borders_of (modes_of codes.now constants.now))
        shape.now axis «data».now (length out.old) (length second.old))
        (unknown_borders codes.now shape.now))
        (gradientOf prewitt_weights (borders_of (modes_of codes.now constants.now))
        shape.now axis «data».now) out.old (second.old ∷ []) result
        out.new (second.new ∷ []) }
{
    let modes = codes_cells::modes_of(codes, constants);
    if codes_cells::unknown_any(codes, shape) {
        let judged = gradient::judge_gradient(data, shape, axis, modes, out.len(), second.len());
        return codes::unknown_after(numbers::answer_number(judged));
    }
    numbers::answer_number(gradient::prewitt(data, shape, axis, modes, second, out))
}

// As `suvvokal_prewitt`, smoothed by 1 2 1; the call `sobel`. Of the rows 1 2 / 3 4 along axis 0 under constant 0: 10
// 11 / -4 -5.
#[unsafe(no_mangle)]
pub extern "C" fn suvvokal_sobel(
    data: &[i64],
    shape: &[usize],
    axis: usize,
    codes: &[u8],
    constants: &[i64],
    second: &mut [i64],
    out: &mut [i64],
) -> u8
    ensures { ScratchAnswers (pos 0) (coded
        (gradient_judged sobel_weights (borders_of (modes_of codes.now constants.now))
        shape.now axis «data».now (length out.old) (length second.old))
        (unknown_borders codes.now shape.now))
        (gradientOf sobel_weights (borders_of (modes_of codes.now constants.now))
        shape.now axis «data».now) out.old (second.old ∷ []) result
        out.new (second.new ∷ []) }
{
    let modes = codes_cells::modes_of(codes, constants);
    if codes_cells::unknown_any(codes, shape) {
        let judged = gradient::judge_gradient(data, shape, axis, modes, out.len(), second.len());
        return codes::unknown_after(numbers::answer_number(judged));
    }
    numbers::answer_number(gradient::sobel(data, shape, axis, modes, second, out))
}

// The means along every axis, in rising order, each pass cut toward zero; the call `uniform_filter`.
//
// * `data` - the cells of the grid, in row-major order.
// * `shape` - the length of each axis.
// * `size` - the length of the window on every axis.
// * `codes`, `constants` - the border of each axis: 0 constant, 1 mirror, 2 nearest, 3 reflect, 4 wrap; those past the
//   axis count are not read, a missing code is unknown and a missing constant 0.
// * `second` - a second grid as long as data; an accepted call leaves zeros in it.
// * `out` - as long as data. A refused call leaves both lent grids as they were.
//
// Refuses: 1 (shape), 2 (length), 3 (level), 5 (kernel), 9 (constant), 11 (reach), 100 (unknown code). Of the rows 1 2
// / 3 -6 with size 2 under nearest: 1 1 / 2 0.
#[unsafe(no_mangle)]
pub extern "C" fn suvvokal_uniform_filter(
    data: &[i64],
    shape: &[usize],
    size: usize,
    codes: &[u8],
    constants: &[i64],
    second: &mut [i64],
    out: &mut [i64],
) -> u8
    ensures { ScratchAnswers (pos 0) (coded
        (uniform_judged (borders_of (modes_of codes.now constants.now)) size shape.now
        «data».now (length out.old) (length second.old))
        (unknown_borders codes.now shape.now))
        (uniformOf (borders_of (modes_of codes.now constants.now)) size shape.now
        «data».now) out.old (second.old ∷ []) result out.new
        (second.new ∷ []) }
{
    let modes = codes_cells::modes_of(codes, constants);
    if codes_cells::unknown_any(codes, shape) {
        let judged = uniform::judge_uniform(data, shape, size, modes, out.len(), second.len());
        return codes::unknown_after(numbers::answer_number(judged));
    }
    numbers::answer_number(uniform::uniform_filter(data, shape, size, modes, second, out))
}

// The least level of each cell's box: the minimum along every axis; the call `minimum_filter`.
//
// * `data` - the cells of the grid, in row-major order.
// * `shape` - the length of each axis.
// * `size` - the length of the window on every axis.
// * `codes`, `constants` - the border of each axis: 0 constant, 1 mirror, 2 nearest, 3 reflect, 4 wrap; those past the
//   axis count are not read, a missing code is unknown and a missing constant 0.
// * `origin` - how far the window is moved on every axis.
// * `second` - a second grid as long as data; an accepted call leaves zeros in it.
// * `out` - as long as data. A refused call leaves both lent grids as they were.
//
// Refuses: 1 (shape), 2 (length), 3 (level), 5 (kernel), 7 (origin), 9 (constant), 11 (reach), 100 (unknown code). Of
// the rows 5 3 / 4 9 with size 2 under constant 0: 0 0 / 0 3.
#[unsafe(no_mangle)]
pub extern "C" fn suvvokal_minimum_filter(
    data: &[i64],
    shape: &[usize],
    size: usize,
    codes: &[u8],
    constants: &[i64],
    origin: isize,
    second: &mut [i64],
    out: &mut [i64],
) -> u8
    ensures { ScratchAnswers (pos 0) (coded
        (filter_judged «data».now (grid_call_of shape.now size
        (modes_of codes.now constants.now) origin out.old)
        (length second.old)) (unknown_borders codes.now shape.now))
        (filter_answer le_z (grid_call_of shape.now size
        (modes_of codes.now constants.now) origin out.old) «data».now)
        out.old (second.old ∷ []) result out.new (second.new ∷ []) }
{
    let modes = codes_cells::modes_of(codes, constants);
    if codes_cells::unknown_any(codes, shape) {
        let judged = min_max_judge::judge_filter(
            data,
            shape,
            size,
            modes,
            origin,
            out,
            second.len(),
        );
        return codes::unknown_after(numbers::answer_number(judged));
    }
    numbers::answer_number(min_max::minimum_filter(data, shape, size, modes, origin, second, out))
}

// As `suvvokal_minimum_filter`, with the greatest level; the call `maximum_filter`. Of the rows 5 3 / 4 9 with size 2
// under constant 0: 5 5 / 5 9.
#[unsafe(no_mangle)]
pub extern "C" fn suvvokal_maximum_filter(
    data: &[i64],
    shape: &[usize],
    size: usize,
    codes: &[u8],
    constants: &[i64],
    origin: isize,
    second: &mut [i64],
    out: &mut [i64],
) -> u8
    ensures { ScratchAnswers (pos 0) (coded
        (filter_judged «data».now (grid_call_of shape.now size
        (modes_of codes.now constants.now) origin out.old)
        (length second.old)) (unknown_borders codes.now shape.now))
        (filter_answer at_least (grid_call_of shape.now size
        (modes_of codes.now constants.now) origin out.old) «data».now)
        out.old (second.old ∷ []) result out.new (second.new ∷ []) }
{
    let modes = codes_cells::modes_of(codes, constants);
    if codes_cells::unknown_any(codes, shape) {
        let judged = min_max_judge::judge_filter(
            data,
            shape,
            size,
            modes,
            origin,
            out,
            second.len(),
        );
        return codes::unknown_after(numbers::answer_number(judged));
    }
    numbers::answer_number(min_max::maximum_filter(data, shape, size, modes, origin, second, out))
}
