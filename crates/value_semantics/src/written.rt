//! ASCII names in the tables.
ghost use Rattle.std.specs.Prelude.{◌≡◌};
ghost use Rattle.std.specs.Str.{bytes_eq};

/// Whether the ASCII name is written with these characters.
pub fn is_written(name: &str, chars: &[char]) -> bool
    ensures { result ≡ bytes_eq name.now chars.now }
{
    let bytes = name.as_bytes();
    if bytes.len() != chars.len() {
        return false;
    }
    for i in 0..chars.len() {
        if char::from(bytes[i]) != chars[i] {
            return false;
        }
    }
    true
}
