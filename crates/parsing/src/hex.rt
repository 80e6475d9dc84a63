// Bytes from hex digits of either case, two to a byte, the higher first.
ghost use Rattle.std.specs.Prelude.{◌≡◌, ◌≤◌, length};
ghost use Rattle.rules.specs.Buffer.{Placed};
ghost use Rattle.parsing.specs.Hex.{is_hex, are_hex, IsHexValue, bytes_of_hex};

pub fn are_hex(text: &[u8]) -> bool
    ensures { result ≡ are_hex text.now }
{
    text.iter().all(|b| is_hex(*b))
}

// Puts the bytes that hex digits stand for at the front of a buffer. Answers how many they are.
pub fn put_bytes_of_hex(text: &[u8], bytes: &mut [u8]) -> usize
    requires { length text.now ≤ length bytes.old }
    ensures { Placed bytes.old 0 (bytes_of_hex text.now) bytes.new result }
{
    for (i, pair) in text.chunks_exact(2).enumerate() {
        bytes[i] = hex_value(pair[0]) * 16 + hex_value(pair[1]);
    }
    text.len() / 2
}

#[tactic(auto, using(crate::proofs::Tests::hex_ranges), unfolding(crate::specs::Hex::is_hex))]
fn is_hex(b: u8) -> bool
    ensures { result ≡ is_hex b }
{
    b.is_ascii_hexdigit()
}

#[tactic(auto, using(crate::proofs::Tests::hex_ranges), unfolding(crate::specs::Hex::hex_value))]
fn hex_value(b: u8) -> u8
    ensures { IsHexValue b result }
{
    match b {
        b'0'..=b'9' => b - b'0',
        b'a'..=b'f' => b - b'a' + 10,
        b'A'..=b'F' => b - b'A' + 10,
        _ => 0,
    }
}
