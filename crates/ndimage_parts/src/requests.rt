// The requests: their numbers, and the table that they are read by.
ghost use Rattle.ndimage_spec.specs.Requests.{RequestTable};

// The requests by number, the places of their lines in the table.
pub const CORRELATE: usize = 0;

pub const CONVOLVE: usize = 1;

pub const CORRELATE1D: usize = 2;

pub const CONVOLVE1D: usize = 3;

pub const MINIMUM1D: usize = 4;

pub const MAXIMUM1D: usize = 5;

pub const MINIMUM: usize = 6;

pub const MAXIMUM: usize = 7;

pub const UNIFORM: usize = 8;

pub const UNIFORM1D: usize = 9;

pub const PREWITT: usize = 10;

pub const SOBEL: usize = 11;

pub const PAD: usize = 12;

pub const PAD_TO: usize = 13;

pub const MEDIAN: usize = 14;

pub const PLAY: usize = 15;

pub const SYMMETRY: usize = 16;

pub const KERNEL3D: usize = 17;

pub const READ_RECIPE: usize = 18;

pub const WRITE_RECIPE: usize = 19;

pub const HELP: usize = 20;

// A line for each request: its word, and the letters of its parts in the order of reading, which parts.rt explains.
#[tactic(auto, unfolding(words::specs::Words::column_from))]
pub fn table() -> [u8; 435]
    ensures { RequestTable result }
{
    *b"\
correlate ALCDSKNWBVOE
convolve ALCDSKNWBVOE
correlate1d FALCDNWXBVOE
convolve1d FALCDNWXBVOE
minimum_filter1d ALCDZXBVOE
maximum_filter1d ALCDZXBVOE
minimum_filter ALCDZBVbvcwOET
maximum_filter ALCDZBVbvcwOET
uniform_filter ALCDZBVbvcwET
uniform_filter1d ALCDZXBVE
prewitt ALCDXBVbvcwET
sobel ALCDXBVbvcwET
pad ALCDPVRQE
pad_to ALCDPVRQEH
median_filter ALCDE
play GALCDET
symmetry FCD
kernel3d M
read_recipe G
write_recipe JYUE
help \n"
}
