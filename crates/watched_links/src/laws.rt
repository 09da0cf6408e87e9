//! When a session is told all its rules again, as a law over all that its gateway may answer.
//!
//! The function does nothing: what it says is its contract.
ghost use Rattle.std.specs.Prelude.{◌≡◌, ℕ, false, nat_le, ◌-◌, List};
ghost use Rattle.watched_links.specs.Answers.{Answer, AreInTime, all_answered, answered, time_of};
ghost use Rattle.watched_links.specs.Stages.{is_answer, is_due};
ghost use Rattle.watched_links.specs.declared.stage.Stage.TheVariants.{Refused, ToldAgain, GivenUp};

/// A session whose gateway refused a push waits for the pause, whatever the gateway answers meanwhile, and is due from then on. One that
/// was told again isn't due at any time behind answers to that, however many are refused. Of one that was given up what is answered later
/// is of rules that changed: it waits for the pause from then on.
pub fn what_is_told_again_is_told_once()
    ensures due { (pause since now : ℕ) (answers : List Answer)
        → is_due pause now (all_answered pause (Refused since) answers)
        ≡ nat_le pause (now - since) }
    ensures once { (pause since now : ℕ) (answers : List Answer) → AreInTime pause since answers
        → is_due pause now (all_answered pause (ToldAgain since) answers) ≡ false }
    ensures anew { (pause since : ℕ) (answer : Answer)
        → is_answer pause since (time_of answer) ≡ false
        → answered pause (GivenUp since) answer ≡ Refused (time_of answer) }
{}
