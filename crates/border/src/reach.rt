// Condition 11 of a lane: how long a pad a border fills.
ghost use Rattle.std.specs.Prelude.{◌≡◌};
ghost use Rattle.border.specs.Modes.{border_of};
ghost use Rattle.border.specs.Reach.{bad_along, bad_pad};

use crate::{BorderMode, CellBorder};

// Condition 11 of a lane that is extended by cells of its own: whether they cannot fill a pad that long.
//
// * `along` - which cells.
// * `n` - how many cells the lane has.
// * `pad` - how many places are padded on one side.
//
// Of three cells Mirror fills a pad of 2 and not of 3, Reflect and Wrap fill 3 and not 4, Nearest any.
pub fn bad_along(along: CellBorder, n: usize, pad: usize) -> bool
    ensures { result ≡ bad_along along n pad }
{
    match along {
        CellBorder::Nearest => false,
        CellBorder::Mirror => n.saturating_sub(1) < pad,
        CellBorder::Reflect | CellBorder::Wrap => n < pad,
    }
}

// Condition 11 of a lane: whether the border cannot fill a pad that long.
//
// * `mode` - the border.
// * `n`, `pad` - as in `bad_along`.
//
// Of three cells Mirror fills a pad of 2 and not of 3, Constant any.
pub fn bad_pad(mode: BorderMode, n: usize, pad: usize) -> bool
    ensures { result ≡ bad_pad (border_of mode) n pad }
{
    match mode {
        BorderMode::Constant(_) => false,
        BorderMode::Mirror => bad_along(CellBorder::Mirror, n, pad),
        BorderMode::Nearest => bad_along(CellBorder::Nearest, n, pad),
        BorderMode::Reflect => bad_along(CellBorder::Reflect, n, pad),
        BorderMode::Wrap => bad_along(CellBorder::Wrap, n, pad),
    }
}
