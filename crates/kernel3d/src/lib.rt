// Common kernels of 3 x 3 x 3 cells, also called structuring elements.
#![tactic(auto)]

ghost use Rattle.std.specs.Prelude.{◌≡◌};
ghost use Rattle.kernel3d.specs.Shape.{shape, count_of};
ghost use Rattle.kernel3d.specs.Rows.{Kernel3dRows};

#[derive(Clone, Copy)]
pub enum Kernel3d {
    // Diamond or star: the centre and its 6 face neighbours.
    // Equivalent to SciPy's generate_binary_structure(3, 1).
    Star,
    // Ball: the star and the 12 edge neighbours of the centre.
    // Equivalent to SciPy's generate_binary_structure(3, 2).
    Ball,
    // Cube: all 27 cells.
    // Equivalent to SciPy's generate_binary_structure(3, 3).
    Full,
}

impl Kernel3d {
    // How many cells of each kernel are true.
    pub const STAR_COUNT: usize = 7;

    pub const BALL_COUNT: usize = 19;

    pub const FULL_COUNT: usize = 27;

    // The kernel's cells, the last axis fastest.
    // Star has cell [0][1][1], a face, true and cell [0][0][1], an edge, false.
    pub fn generate(self) -> [[[bool; 3]; 3]; 3]
        ensures { result ≡ shape self }
    {
        match self {
            Kernel3d::Star => [
                [
                    [false, false, false],
                    [false, true, false],
                    [false, false, false],
                ],
                [
                    [false, true, false], // edge, face, edge
                    [true, true, true], // face, centre, face
                    [false, true, false],
                ],
                [
                    [false, false, false],
                    [false, true, false],
                    [false, false, false],
                ],
            ],
            Kernel3d::Ball => [
                [
                    [false, true, false],
                    [true, true, true],
                    [false, true, false],
                ],
                [[true, true, true], [true, true, true], [true, true, true]],
                [
                    [false, true, false],
                    [true, true, true],
                    [false, true, false],
                ],
            ],
            Kernel3d::Full => [[[true; 3]; 3]; 3],
        }
    }

    // The number of true cells. Ball has 1 + 6 + 12 = 19.
    pub fn count(self) -> usize
        ensures { result ≡ count_of self }
    {
        match self {
            Kernel3d::Star => Kernel3d::STAR_COUNT,
            Kernel3d::Ball => Kernel3d::BALL_COUNT,
            Kernel3d::Full => Kernel3d::FULL_COUNT,
        }
    }
}

// Worked rows about the definitions that the contracts cite; nothing runs.
pub fn rows()
    ensures { Kernel3dRows }
{}
