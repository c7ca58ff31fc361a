//! Laws of what files stand for. Each function does nothing: its contract is the law.
ghost use Rattle.std.specs.Prelude.{◌≡◌, ◌≢◌, ◌+◌, ℕ, List, ◌∷◌, ◌++◌, length, Ok, Err};
ghost use Rattle.std.specs.List.{All};
ghost use Rattle.fed_journal.specs.Lines.{IsLine, at_rest, digest_of, first_digest, front_of, last_digest, open_lines, recovered};

/// A file at rest stands for its entries, whatever stands behind its gate.
pub fn files_at_rest_are_read()
    ensures { (entries : List (List ℕ)) (tail : List ℕ) → All IsLine entries → recovered (at_rest entries ++ tail) ≡ Ok entries }
{}

/// An entry whose text was changed is damage, told by its line, unless the two texts have one digest.
pub fn changed_texts_are_damage()
    ensures { (entries : List (List ℕ)) (text other more : List ℕ) → All IsLine entries → IsLine other →
        digest_of (last_digest first_digest entries) other ≢ digest_of (last_digest first_digest entries) text →
        recovered (open_lines first_digest entries ++ ((front_of (digest_of (last_digest first_digest entries) text) ++ other) ++ 10 ∷ more)) ≡ Err (length entries + 1) }
{}
