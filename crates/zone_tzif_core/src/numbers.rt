//! Big-endian numbers.
ghost use Rattle.std.specs.Prelude.{◌≡◌, ◌≤◌, ◌+◌, drop, length};
ghost use Rattle.zone_tzif_core.specs.Numbers.{count_of, four_of, eight_of};

/// The number of four bytes from a place on.
#[tactic(auto, unfolding(crate::specs::Numbers::count_of))]
pub(crate) fn count_at(bytes: &[u8], at: usize) -> u32
    requires { at + 4 ≤ length bytes.now }
    ensures { result ≡ count_of (drop at bytes.now) }
{
    let front = &bytes[at..];
    u32::from_be_bytes([front[0], front[1], front[2], front[3]])
}

/// The signed number of four bytes at the front.
#[tactic(auto, unfolding(crate::specs::Numbers::four_of))]
pub(crate) fn signed_four(bytes: &[u8]) -> i32
    requires { 4 ≤ length bytes.now }
    ensures { result ≡ four_of bytes.now }
{
    i32::from_be_bytes([bytes[0], bytes[1], bytes[2], bytes[3]])
}

/// The signed number of eight bytes at the front.
#[tactic(auto, unfolding(crate::specs::Numbers::eight_of))]
pub(crate) fn signed_eight(bytes: &[u8]) -> i64
    requires { 8 ≤ length bytes.now }
    ensures { result ≡ eight_of bytes.now }
{
    i64::from_be_bytes([
        bytes[0], bytes[1], bytes[2], bytes[3], bytes[4], bytes[5], bytes[6], bytes[7],
    ])
}
