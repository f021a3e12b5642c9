//! Names that the rules know.
use gd_syntax::Text;

/// Whether a text is this word.
pub fn is_text(text: &Text, word: &str) -> bool {
    text.chars().iter().copied().eq(word.chars())
}
