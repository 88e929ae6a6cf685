ghost use Rattle.judgement.specs.Phases.{heard_in, knows};
ghost use Rattle.std.specs.Prelude.{◌≡◌};

use command::verb::Verb;

// The protocol of a session.
#[derive(Clone, Copy, PartialEq, Eq, Debug)]
pub enum Kind {
    Smtp,
    Lmtp,
}

// How far a session has come.
#[derive(Clone, Copy, PartialEq, Eq, Debug)]
pub enum Phase {
    Fresh,
    Greeted,
    Mail,
    Rcpt,
    Data,
    Chunks,
    Spoiled,
    Ended,
}

// Whether a protocol has a verb; what is no verb is in none.
pub fn is_known(kind: Kind, verb: Option<Verb>) -> bool
    ensures { result ≡ knows kind verb }
{
    match verb {
        Some(Verb::Helo | Verb::Ehlo) => kind == Kind::Smtp,
        Some(Verb::Lhlo) => kind == Kind::Lmtp,
        Some(_) => true,
        None => false,
    }
}

// Whether a verb is heard in a phase.
pub fn heard(phase: Phase, verb: Option<Verb>) -> bool
    ensures { result ≡ heard_in phase verb }
{
    match verb {
        Some(Verb::Mail) => phase == Phase::Greeted,
        Some(Verb::Rcpt) => matches!(phase, Phase::Mail | Phase::Rcpt),
        Some(Verb::Data) => phase == Phase::Rcpt,
        _ => true,
    }
}
