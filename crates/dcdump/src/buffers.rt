// The buffers of the program (FORMAT, "Frames").
ghost use Rattle.std.specs.Prelude.{◌≡◌, length};

// The most that is read of the input: one byte more than the longest valid input has.
pub const INPUT: usize = 393_217;

// The bytes that frames give.
pub const FILE: usize = 32_768;

// The workspace of acceptance.
pub const WORKSPACE: usize = 2048;

// The outline's buffer.
pub const OUTLINE: usize = 65_536;

// The longest output: `accepted 32768`, a newline and a full outline.
pub const OUTPUT: usize = 65_551;

// A buffer. Only its length matters: a caller's proof is spared its zeros.
pub fn zeros<const N: usize>() -> [u8; N]
    ensures { N ≡ length result }
{
    [0; N]
}
