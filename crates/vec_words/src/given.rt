//! What the words give for the mode and for each option.
ghost use Rattle.std.specs.Prelude.{◌≡◌};
ghost use Rattle.clap.specs.Matches.{found_of};
ghost use Rattle.vec_words.specs.inner.Given.{values_in, values_found};

use clap::ArgMatches;

/// What the words give for the mode and for each option, where they give it.
#[derive(Clone, Copy)]
pub(crate) struct Given<'a> {
    pub(crate) mode: Option<&'a str>,
    pub(crate) exchanges: Option<&'a str>,
    pub(crate) listen: Option<&'a str>,
    pub(crate) table: Option<&'a str>,
    pub(crate) seed: Option<&'a str>,
    pub(crate) rows: Option<&'a str>,
    pub(crate) workers: Option<&'a str>,
    pub(crate) journal: Option<&'a str>,
    pub(crate) sqlite: Option<&'a str>,
}

impl<'a> Given<'a> {
    /// What was found.
    pub(crate) fn from_matches(matches: &ArgMatches<'a>) -> Given<'a>
        ensures { values_in result ≡ values_found (found_of matches.now) }
    {
        Given {
            mode: matches.get_str("mode"),
            exchanges: matches.get_str("exchanges"),
            listen: matches.get_str("listen"),
            table: matches.get_str("table"),
            seed: matches.get_str("seed"),
            rows: matches.get_str("rows"),
            workers: matches.get_str("workers"),
            journal: matches.get_str("journal"),
            sqlite: matches.get_str("sqlite"),
        }
    }
}
