//! The words that a line of a site may begin with.
ghost use Rattle.std.specs.Prelude.{◌≡◌};
ghost use Rattle.fed_site.specs.Words.{lines_of_words};

/// The words that a line of a site may begin with, or have behind a user: a line `KIND WORD` for each. The kinds are `utility`
/// and `user`, of what stands behind a user, `look`, and `site`, of what the site's own scheduler and its owner ask. A word
/// may be of two kinds.
pub fn words_of_lines() -> &'static str
    ensures { result.now ≡ lines_of_words }
{
    "utility qsub\n\
    utility qalter\n\
    utility qhold\n\
    utility qrls\n\
    utility qdel\n\
    utility qstat\n\
    look why\n\
    look machine\n\
    look reservations\n\
    look jobs\n\
    look seen\n\
    look chart\n\
    look plan\n\
    look plan-json\n\
    look machine-json\n\
    look roster\n\
    look seen-json\n\
    look reservations-json\n\
    site grant\n\
    site begin\n\
    site finish\n\
    site handback\n\
    site decline\n\
    site retire\n\
    site ship\n\
    site take\n\
    site plan\n\
    site roster\n\
    user reserve\n\
    user cancel\n"
}
