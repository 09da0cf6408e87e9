//! How it stands with a session whose gateway refused a push.
ghost use Rattle.std.specs.Prelude.{◌≡◌, min};
ghost use Rattle.watched_links.specs.Stages.{has_passed as passed, is_answer as answers, stage_refused, stage_accepted, is_due as due, is_over as over, is_given_up as given_up};

/// For how many milliseconds behind a telling what is answered is taken for an answer to that, where the pause isn't shorter.
const ANSWER_MILLIS: u64 = 10_000;

/// How it stands with a session whose gateway refused a push, and since when, in milliseconds.
#[derive(Clone, Copy, Debug, PartialEq, Eq)]
pub(crate) enum Stage {
    /// A push was refused: all rules are to be told again.
    Refused(u64),
    /// All were told again.
    ToldAgain(u64),
    /// They were told again then, and refused again: nothing more is told until the session's rules change.
    GivenUp(u64),
}

/// Whether the pause has passed.
fn has_passed(since: u64, now: u64, pause: u64) -> bool
    ensures { result ≡ passed pause since now }
{
    now.saturating_sub(since) >= pause
}

/// Whether what is answered may be what was told again then.
fn is_answer(since: u64, now: u64, pause: u64) -> bool
    ensures { result ≡ answers pause since now }
{
    !has_passed(since, now, pause.min(ANSWER_MILLIS))
}

impl Stage {
    /// How it stands once a push is refused. Soon behind a telling that is what was told again; later it is what the site pushed since
    /// rules changed.
    pub(crate) fn refused(before: Option<Stage>, now: u64, pause: u64) -> Stage
        ensures { result ≡ stage_refused pause now before }
    {
        match before {
            Some(Stage::Refused(since)) => Stage::Refused(since),
            Some(Stage::ToldAgain(since) | Stage::GivenUp(since)) if is_answer(since, now, pause) =>
                { Stage::GivenUp(since) }
            _ => Stage::Refused(now),
        }
    }

    /// How it stands once a push is accepted. It is of rules that changed where nothing was told again just before.
    pub(crate) fn accepted(self, now: u64, pause: u64) -> Stage
        ensures { result ≡ stage_accepted pause now self }
    {
        match self {
            Stage::GivenUp(since) if !is_answer(since, now, pause) => Stage::Refused(now),
            stage => stage,
        }
    }

    /// Whether all rules are to be told again now.
    pub(crate) fn is_due(self, now: u64, pause: u64) -> bool
        ensures { result ≡ due pause now self }
    {
        match self {
            Stage::Refused(since) => has_passed(since, now, pause),
            Stage::ToldAgain(_) | Stage::GivenUp(_) => false,
        }
    }

    /// Whether what was told again wasn't refused, so that nothing is left to do.
    pub(crate) fn is_over(self, now: u64, pause: u64) -> bool
        ensures { result ≡ over pause now self }
    {
        match self {
            Stage::ToldAgain(since) => !is_answer(since, now, pause),
            Stage::Refused(_) | Stage::GivenUp(_) => false,
        }
    }

    /// Whether nothing more is told.
    pub(crate) fn is_given_up(self) -> bool
        ensures { result ≡ given_up self }
    {
        match self {
            Stage::GivenUp(_) => true,
            Stage::Refused(_) | Stage::ToldAgain(_) => false,
        }
    }
}
