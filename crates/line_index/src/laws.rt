//! Facts about the definitions, each the contract of a function that does nothing.
ghost use Rattle.std.specs.Prelude.{◌≡◌, ℕ, List, IsCharBoundary};
ghost use Rattle.line_index.specs.Lines.{IsWithinEnd, column_of, line_of, offset_of};

/// The position of a byte is that byte's alone: a byte that begins a character or ends the text,
/// and is not within `\r\n`, is found again by its line and column.
pub fn positions_lead_back()
    ensures { (text : List ℕ) (at : ℕ) → IsCharBoundary text at → (IsWithinEnd text at → ⊥)
        → offset_of text (line_of text at) (column_of text at) ≡ at }
{}
