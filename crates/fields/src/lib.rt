// The numbers that stand in a slice of bytes. Contracts: specs/Fields.antt.
#![tactic(auto)]

ghost use Rattle.std.specs.Prelude.{◌≡◌, ◌+◌, ◌≤◌, length};
ghost use Rattle.fields.specs.Fields.{u32_at, u64_at};

// The u32 at an offset.
#[tactic(auto, unfolding(crate::specs::Fields::u32_at))]
pub fn u32_at(s: &[u8], at: usize) -> u32
    requires { at + 4 ≤ length s.now }
    ensures { result ≡ u32_at s.now at }
{
    u32::from_le_bytes([s[at], s[at + 1], s[at + 2], s[at + 3]])
}

// The bit pattern of the float at an offset: two words. `u64::from_le_bytes` over eight indices is no plainer.
#[tactic(auto, unfolding(crate::specs::Fields::u64_at))]
pub fn u64_at(s: &[u8], at: usize) -> u64
    requires { at + 8 ≤ length s.now }
    ensures { result ≡ u64_at s.now at }
{
    u64::from(u32_at(s, at)) + 4294967296 * u64::from(u32_at(s, at + 4))
}
