// Little-endian numbers of a slice, read by plain indices: each caller shows that the bytes are there.
ghost use Rattle.std.specs.Prelude.{◌≡◌, ◌+◌, ◌-◌, ◌≤◌, length};
ghost use Rattle.record.specs.Bytes.{u16_at, u32_at, i32_at, signed};

#[tactic(auto, unfolding(crate::specs::Bytes::u16_at))]
pub fn u16_at(s: &[u8], at: usize) -> u16
    requires { at + 2 ≤ length s.now }
    ensures { result ≡ u16_at s.now at }
{
    u16::from_le_bytes([s[at], s[at + 1]])
}

#[tactic(auto, unfolding(crate::specs::Bytes::u32_at, crate::specs::Bytes::u16_at))]
pub fn u32_at(s: &[u8], at: usize) -> u32
    requires { at + 4 ≤ length s.now }
    ensures { result ≡ u32_at s.now at }
{
    u32::from_le_bytes([s[at], s[at + 1], s[at + 2], s[at + 3]])
}

// The signed number that 32 bits are, two's complement.
#[tactic(auto, unfolding(crate::specs::Bytes::signed))]
pub fn signed_of(n: u32) -> i32
    ensures { result ≡ signed n }
{
    n.cast_signed()
}

pub fn i32_at(s: &[u8], at: usize) -> i32
    requires { at + 4 ≤ length s.now }
    ensures { result ≡ i32_at s.now at }
{
    signed_of(u32_at(s, at))
}

// How many bytes are left from a place on.
pub fn left_from(s: &[u8], at: usize) -> usize
    ensures { result ≡ length s.now - at }
{
    s.len().saturating_sub(at)
}
