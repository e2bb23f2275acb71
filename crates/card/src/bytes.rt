// Bytes: the numbers in them, little-endian, and putting some into a buffer.
ghost use Rattle.std.specs.Prelude.{◌≡◌, ◌+◌, ◌≤◌, length};
ghost use Rattle.card.specs.Bytes.{u16_at, float_at};
ghost use Rattle.card.specs.Text.{Written};

use numbers::bits::from_bits;

// The 16-bit number that starts at byte `at`.
#[tactic(auto, unfolding(crate::specs::Bytes::u16_at))]
pub(crate) fn u16_at(bytes: &[u8], at: usize) -> u16
    requires { at + 2 ≤ length bytes.now }
    ensures { result ≡ u16_at bytes.now at }
{
    u16::from_le_bytes([bytes[at], bytes[at + 1]])
}

// The binary32 number whose bits start at byte `at`, any NaN's as the NaN.
#[tactic(auto, unfolding(crate::specs::Bytes::u32_at))]
pub(crate) fn f32_at(bytes: &[u8], at: usize) -> f32
    requires { at + 4 ≤ length bytes.now }
    ensures { result ≡ float_at bytes.now at }
{
    from_bits(u32::from_le_bytes([bytes[at], bytes[at + 1], bytes[at + 2], bytes[at + 3]]))
}

// Puts some bytes into a buffer from index `at` on, and hands back the index after them.
pub(crate) fn put(out: &mut [u8], at: usize, bytes: &[u8]) -> usize
    requires { at + length bytes.now ≤ length out.old }
    ensures { Written out.old at bytes.now out.new result }
{
    let end = at + bytes.len();
    out[at..end].copy_from_slice(bytes);
    end
}
