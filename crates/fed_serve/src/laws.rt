//! Laws of what is written. Each function does nothing: its contract is the law.
ghost use Rattle.std.specs.Prelude.{◌≡◌, ◌++◌, ◌∷◌, [], List, ℕ, false};
ghost use Rattle.std.specs.List.{flat_map};
ghost use Rattle.fed_site.specs.SiteAnswer.{bytes_of};
ghost use Rattle.fed_site.specs.Told.{answers_in};
ghost use Rattle.fed_site.specs.declared.tellings.Told.{Told};
ghost use Rattle.fed_serve.specs.Frame.{Frame, IsHeld, frame_bytes};
ghost use Rattle.fed_serve.specs.Written.{told_text};

/// In lines the answers are written, an empty line behind each, and nothing else.
pub fn answers_stand_alone_in_lines()
    ensures { (answers : List Told) →
        told_text false answers ≡ flat_map (λ answer. bytes_of answer ++ 10 ∷ []) (answers_in answers) }
{}

/// A frame that was written gives back its status, its answer and its words, and where what is written behind it begins:
/// no other frame could have written the same.
pub fn frames_are_read_back()
    ensures { (one other : Frame) (rest more : List ℕ) → IsHeld one → IsHeld other →
        frame_bytes one ++ rest ≡ frame_bytes other ++ more → (one ≡ other) × (rest ≡ more) }
{}
