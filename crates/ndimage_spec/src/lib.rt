// What a request of the program `ndimage` is: the table of requests with their parts, what is read for each part, and
// what can be wrong with a line. The definitions, and worked rows of them; `ndimage_read` and `ndimage_write` have
// the code.
#![tactic(auto)]

ghost use Rattle.ndimage_spec.specs.Rows.{NdimageSpecRows};

// What a token of a part is.
#[derive(Clone, Copy)]
pub enum Kind {
    // The word i or f, which says what levels are.
    Form,
    // The word of a border, a padding mode or a kernel.
    Border,
    Padding,
    Kernel,
    // An unsigned number.
    Count,
    // A signed number.
    Whole,
    // A signed number, or a float under f.
    Level,
    // Bytes in hexadecimal.
    Bytes,
}

// How many tokens a part has.
#[derive(Clone, Copy)]
pub enum Times {
    Once,
    // As many as the last count says; after a word one where it is the first of its table, as `constant` is, else none.
    Last,
    // Twice as many.
    TwiceLast,
    // Six times as many.
    SixLast,
}

// What is read for a part: of which kind and how often; then the slot of its first number, and how many of its
// numbers are kept, in slots one by one.
#[derive(Clone, Copy)]
pub struct Part(pub Kind, pub Times, pub usize, pub usize);

// What can be wrong with a line. Its number is the place of its text.
#[derive(Clone, Copy, PartialEq, Eq, Debug)]
pub enum Fault {
    // A word that names no request.
    Request = 1,
    // A token that the request needs or has no use for.
    Missing = 2,
    Extra = 3,
    // A token that is no number, or no word of its kind.
    Number = 4,
    Mode = 5,
    Form = 6,
    Kernel = 7,
    // More weights than are held; more bytes than a line may have.
    Weights = 8,
    Long = 9,
    // A level of a mask that is neither 0 nor 1.
    Mask = 10,
    // No token on the line.
    Empty = 11,
    // A token that is no bytes in hexadecimal, or more than are kept; more steps than a file has.
    Bytes = 12,
    ManyBytes = 13,
    ManySteps = 14,
    // A number of a step that its field cannot hold.
    Field = 15,
}

// Worked rows about requests.
pub fn rows()
    ensures { NdimageSpecRows }
{}
