//! Numbers as the command line writes them.
ghost use Rattle.std.specs.Prelude.{◌≡◌, ◌≤◌, ℕ, MatchOption, decimal};

use itoa::Buffer;

/// The number that this text writes in decimal digits, with no sign and no leading zero, where it is at most `most`.
pub fn read_decimal(text: &str, most: u32) -> Option<u32>
    ensures { MatchOption result
        ((n : ℕ) → n ≤ most → text.now ≡ decimal n → ⊥)
        (λ n. (text.now ≡ decimal n) × (n ≤ most)) }
{
    let Ok(number) = text.parse::<u32>() else {
        return None;
    };
    if number > most {
        return None;
    }
    let mut buffer = Buffer::new();
    if buffer.format(number) != text {
        return None;
    }
    Some(number)
}
