//! How much of an input is read at once, and how much of it at all.
ghost use Rattle.std.specs.Prelude.{◌≡◌, ◌<◌, ◌≤◌, ◌+◌};

/// The most bytes of an input.
pub const MAX_INPUT: u64 = 67_108_864;

/// How many bytes a read may take at once.
pub const READ_BUFFER: usize = 65_536;

/// How many bytes the next read may take where so many were taken: as much as goes into the buffer and up to the limit,
/// and then one byte, which tells that the input is too large.
pub fn room_after(taken: u64) -> usize
    requires { taken ≤ 67108864 }
    ensures some { 0 < result }
    ensures buffer { result ≤ 65536 }
    ensures limit { taken < 67108864 → taken + result ≤ 67108864 }
    ensures one { taken ≡ 67108864 → result ≡ 1 }
{
    let left = MAX_INPUT - taken;
    if left == 0 {
        1
    } else if left < READ_BUFFER as u64 {
        left as usize
    } else {
        READ_BUFFER
    }
}
