ghost use Rattle.command.specs.Verbs.{first_named, spelling, verbs};
ghost use Rattle.std.specs.Prelude.{◌≡◌};

// The verbs of command lines.
#[derive(Clone, Copy, PartialEq, Eq, Debug)]
pub enum Verb {
    Helo,
    Ehlo,
    Lhlo,
    Mail,
    Rcpt,
    Data,
    Bdat,
    Rset,
    Noop,
    Vrfy,
    Quit,
}

impl Verb {
    // How the verb is spelt.
    fn name(self) -> &'static [u8]
        ensures { result.now ≡ spelling self }
    {
        match self {
            Verb::Helo => b"HELO",
            Verb::Ehlo => b"EHLO",
            Verb::Lhlo => b"LHLO",
            Verb::Mail => b"MAIL",
            Verb::Rcpt => b"RCPT",
            Verb::Data => b"DATA",
            Verb::Bdat => b"BDAT",
            Verb::Rset => b"RSET",
            Verb::Noop => b"NOOP",
            Verb::Vrfy => b"VRFY",
            Verb::Quit => b"QUIT",
        }
    }
}

const VERBS: [Verb; 11] = [
    Verb::Helo,
    Verb::Ehlo,
    Verb::Lhlo,
    Verb::Mail,
    Verb::Rcpt,
    Verb::Data,
    Verb::Bdat,
    Verb::Rset,
    Verb::Noop,
    Verb::Vrfy,
    Verb::Quit,
];

// The verb that a word spells in any case.
pub(crate) fn named(word: &[u8]) -> Option<Verb>
    ensures { result ≡ first_named verbs word.now }
{
    VERBS
        .iter()
        .copied()
        .find(|verb| word.eq_ignore_ascii_case(verb.name()))
}
