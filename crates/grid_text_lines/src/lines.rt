// Levels written as lines of text.
ghost use Rattle.std.specs.Prelude.{◌≡◌, ◌++◌, ◌≤◌, length, drop};
ghost use Rattle.grid_text_spec.specs.Lines.{line_of, lines_in, lines_count};

// How many bytes of room every line asks for: a minus, 19 digits and the line feed.
const LINE_ROOM: usize = 21;

// The line of a level at the front of out, and how many bytes it took.
fn put_line(z: i64, out: &mut [u8]) -> usize
    requires { 21 ≤ length out.old }
    ensures value { result ≡ length (line_of z) }
    ensures out_after { out.new ≡ line_of z ++ drop (length (line_of z)) out.old }
{
    let n = text::write_signed(z, out);
    out[n] = b'\n';
    n + 1
}

// Writes levels at the front of out, each in decimal with a line feed after it, and answers how many bytes they took.
//
// * `levels` - the levels.
// * `out` - at least 21 bytes for each level; in a shorter one nothing is written, and the answer is 0. What stands
//   behind the lines stays.
//
// Refuses: nothing.
// Example: -7 and 12 write "-7\n12\n", and the answer is 6.
pub fn write_lines(levels: &[i64], out: &mut [u8]) -> usize
    ensures value { result ≡ lines_count levels.now out.old }
    ensures out_after { out.new ≡ lines_in levels.now out.old }
{
    if out.len() / LINE_ROOM < levels.len() {
        return 0;
    }
    let mut at = 0;
    for &z in levels {
        at += put_line(z, &mut out[at..]);
    }
    at
}
