//! Bytes of a slice at any index: nothing here can read past an end.
ghost use Rattle.std.specs.Prelude.{◌≡◌, get_or, take, drop};

/// The byte at i, or 0 past the end.
pub fn byte_at(s: &[u8], i: usize) -> u8
    ensures { result ≡ get_or s.now i 0 }
{
    if i < s.len() {
        return s[i];
    }
    0
}

/// The bytes from start, at most count of them: fewer where s ends.
pub fn part(s: &[u8], start: usize, count: usize) -> &[u8]
    ensures { result.now ≡ take count (drop start s.now) }
{
    if s.len() <= start {
        return &s[..0];
    }
    if s.len() - start <= count {
        return &s[start..];
    }
    &s[start..start + count]
}
