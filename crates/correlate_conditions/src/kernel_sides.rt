// Condition 5 of a grid kernel: ranges are tested before anything is multiplied.
ghost use Rattle.std.specs.Prelude.{◌≡◌, false};
ghost use Rattle.numbers.specs.Lists.{any_of};
ghost use Rattle.array_spec.specs.Conditions.{bad_shape};
ghost use Rattle.correlate_judge_spec.specs.KernelJudge.{bad_side, bad_kernel};

// Condition 5 of one side.
fn bad_side(first: usize, side: usize) -> bool
    ensures { result ≡ bad_side first side }
{
    !(1..=numbers::LONGEST_SIDE).contains(&side) || side != first
}

// Condition 5 of all sides: some side is bad.
fn bad_sides(first: usize, sides: &[usize]) -> bool
    ensures { result ≡ any_of (bad_side first) sides.now }
{
    sides.iter().any(|side| bad_side(first, *side))
}

// Condition 5 of a kernel with count weights, on a grid whose shape condition 1 accepts.
pub fn bad_kernel(shape: &[usize], sides: &[usize], count: usize) -> bool
    requires { bad_shape shape.now ≡ false }
    ensures { result ≡ bad_kernel shape.now sides.now count }
{
    sides.len() != shape.len()
        || bad_sides(array::len_of(sides, 0), sides)
        || array::bad_length(sides, count)
}
