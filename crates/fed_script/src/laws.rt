//! Laws of the lines of a script. Each function does nothing: its contract is the law.
ghost use Rattle.std.specs.Prelude.{◌≡◌, ℕ, List, length, Some};
ghost use Rattle.fed_script.specs.Line.{Line, later_line_in};
ghost use Rattle.fed_script.specs.LineSites.{HasSites};

/// The site that a line asks is of the roster, and so are the site that it ships to and the other site that it compares.
/// Sites inside a command are not looked at here.
pub fn lines_name_sites_of_the_roster()
    ensures { (roster : List (List ℕ × ℕ)) (made : ℕ) (bytes : List ℕ) (line : Line) →
        later_line_in roster made bytes ≡ Some line → HasSites (length roster) line }
{}
