// The median of masks, whose cells are read and written as 0 and 1.
use numbers::Refusal;

// Marks, one more than any call takes.
type Mask = [bool; 8193];

// The first n marks as levels.
fn unmark(mask: &Mask, n: usize, out: &mut [i64]) {
    ndimage_arguments::unmark(ndimage_arguments::marks(mask, 0, n), out);
}

// The call on marks, with an output of as many cells as out.
fn vote(mask: &Mask, count: usize, shape: &[usize], out: &mut [i64]) -> Result<(), Refusal> {
    let mut voted = [false; 8193];
    let n = ndimage_arguments::lent(out.len(), 8193);
    let marks = ndimage_arguments::marks(mask, 0, count);
    let answer = median::median_filter(marks, shape, &mut voted[0..n]);
    unmark(&voted, n, out);
    answer
}

// The call, and its answer; none where a level is neither 0 nor 1.
pub(crate) fn median(
    data: &[i64],
    shape: &[usize],
    out: &mut [i64],
) -> Option<Result<(), Refusal>> {
    if ndimage_arguments::bad_marks(data) {
        return None;
    }
    let mut mask = [false; 8193];
    let n = ndimage_arguments::lent(data.len(), 8193);
    ndimage_arguments::mark(data, &mut mask[0..n]);
    Some(vote(&mask, n, shape, out))
}
