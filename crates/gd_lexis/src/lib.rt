//! What the tokens of a file are, and which fault is its first (docs/language.md, "Lexis"). The definitions stand in
//! specs/, and the functions here are laws about them.
#![tactic(auto)]

ghost use Rattle.std.specs.Prelude.{◌≡◌, List, [], length, ℕ, ◌*◌, ◌+◌, ◌≤◌, ◌⊎◌};
ghost use Rattle.gd_syntax.specs.declared.token.Keyword.{Keyword};
ghost use Rattle.gd_syntax.specs.declared.token.Mark.{Mark};
ghost use Rattle.gd_lexis.specs.declared.glyph.Glyph.{Glyph};
ghost use Rattle.gd_lexis.specs.Chars.{Reads, place_behind};
ghost use Rattle.gd_syntax.specs.declared.pos.Pos.{Pos};
ghost use Rattle.gd_rules.specs.declared.rule.Rule.{Rule};
ghost use Rattle.gd_lexis.specs.Words.{keyword_text, mark_text};
ghost use Rattle.gd_lexis.specs.Numbers.{WritesNumber};
ghost use Rattle.gd_lexis.specs.Strings.{WritesString};
ghost use Rattle.gd_syntax.specs.declared.token.TokenKind.{TokenKind};
ghost use Rattle.gd_lexis.specs.Pieces.{Piece, Writes};
ghost use Rattle.gd_lexis.specs.Lines.{texts};
ghost use Rattle.gd_syntax.specs.declared.token.Token.{Token};
ghost use Rattle.gd_lexis.specs.Lexes.{Lexes};
ghost use Rattle.gd_lexis.specs.Faults.{Breaks, FirstFault, IsBefore, IsBroken, number};
ghost use Rattle.gd_lexis.specs.Faultless.{IsFaultless};
ghost use Rattle.gd_lexis.specs.Trials.{OneBracketed, OneComment, OneFloat, OneMark, OneMarked, OneName, OnePair, OneRaw, OneString, TwoBlocks};

mod glyph;

pub use glyph::Glyph;

/// Bytes are read as glyphs in at most one way.
#[tactic(auto, using(crate::proofs::Readings::one_reading))]
pub fn one_reading()
    ensures { (gs : List Glyph) (hs : List Glyph) (bs : List ℕ) → Reads bs gs → Reads bs hs → gs ≡ hs }
{}

/// A text is that of at most one keyword.
#[tactic(auto, using(crate::proofs::Texts::one_keyword))]
pub fn one_keyword()
    ensures { (k : Keyword) (l : Keyword) → keyword_text k ≡ keyword_text l → k ≡ l }
{}

/// A text is that of at most one mark.
#[tactic(auto, using(crate::proofs::Texts::one_mark))]
pub fn one_mark()
    ensures { (m : Mark) (n : Mark) → mark_text m ≡ mark_text n → m ≡ n }
{}

/// A file has at most one first fault: one place, and the number of one rule.
pub fn one_first_fault()
    ensures { (file : ℕ) (bytes : List ℕ) (at : Pos) (place : Pos) (rule : Rule) (other : Rule)
        → FirstFault file bytes at rule → FirstFault file bytes place other → (at ≡ place) × (number rule ≡ number other) }
{}

/// A text writes at most one number.
pub fn one_number()
    ensures { (text : List ℕ) (m : ℕ) (n : ℕ) → WritesNumber text m → WritesNumber text n → m ≡ n }
{}

/// A text writes at most one string.
pub fn one_string()
    ensures { (text : List ℕ) (t : List ℕ) (u : List ℕ) → WritesString text t → WritesString text u → t ≡ u }
{}

/// A text writes a token of at most one kind.
pub fn one_kind()
    ensures { (k : TokenKind) (l : TokenKind) (text : List ℕ) → Writes k text → Writes l text → k ≡ l }
{}

/// A file has at most one list of tokens.
pub fn one_token_list()
    ensures { (file : ℕ) (bytes : List ℕ) (tokens : List Token) (others : List Token) → Lexes file bytes tokens → Lexes file bytes others → tokens ≡ others }
{}

/// A file with tokens breaks no rule.
pub fn no_fault_beside_tokens()
    ensures { (file : ℕ) (bytes : List ℕ) (tokens : List Token) (rule : Rule) (at : Pos) → Lexes file bytes tokens → IsBroken file bytes rule at → ⊥ }
{}

/// Where what was read of a file keeps all bounds, no rule is broken before what is left.
pub fn no_fault_before()
    ensures { (file : ℕ) (bytes : List ℕ) (before : List Piece) (gs : List Glyph) (rule : Rule) (at : Pos) → IsFaultless bytes before gs → IsBroken file bytes rule at
        → (at ≡ place_behind file (texts before)) ⊎ IsBefore (place_behind file (texts before)) at }
{}

/// There the least rule that is broken where what is left begins is the first fault of the file.
pub fn first_fault_here()
    ensures { (file : ℕ) (bytes : List ℕ) (before : List Piece) (gs : List Glyph) (rule : Rule) → IsFaultless bytes before gs → Breaks rule before gs []
        → ((other : Rule) → Breaks other before gs [] → number rule ≤ number other) → FirstFault file bytes (place_behind file (texts before)) rule }
{}

/// A file has at most four tokens for each byte, and End.
pub fn token_bound()
    ensures { (file : ℕ) (bytes : List ℕ) (tokens : List Token) → Lexes file bytes tokens → length tokens ≤ 4 * length bytes + 1 }
{}

/// Short files, with their tokens or their first fault.
pub fn trials()
    ensures name { OneName }
    ensures mark { OneMark }
    ensures string { OneString }
    ensures pair { OnePair }
    ensures marked { OneMarked }
    ensures blocks { TwoBlocks }
    ensures bracketed { OneBracketed }
    ensures comment { OneComment }
    ensures float { OneFloat }
    ensures raw { OneRaw }
{}
