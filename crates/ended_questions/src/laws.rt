//! The laws of forgetting: a statement each, of any number of sites and sessions, after any list of events.
ghost use Rattle.ended_questions.specs.Laws.{ForgettingChangesEndsAlone, ForgettingChangesNoDeed, EndedIsNeverLive, WhatIsForgottenIsBuried};
ghost use Rattle.ended_questions.specs.Scenes.{all_have_forgotten, two_sites, three_sites, one_of_two, held_after};
ghost use Rattle.ended_questions.specs.Held.{Live};
ghost use Rattle.std.specs.Prelude.{◌≡◌, true, [], ◌∷◌};

/// What a site shows is what it would show had nobody forgotten: an ended session is unknown there, and nothing else changes. And it lets
/// clients do what it would.
pub fn forgetting_changes_ends_alone()
    ensures ends { ForgettingChangesEndsAlone }
    ensures deeds { ForgettingChangesNoDeed }
{}

/// A site that held a session as ended never shows it live again before it starts again.
pub fn ended_is_never_live()
    ensures { EndedIsNeverLive }
{}

/// Once a site has forgotten a session nobody shows it live, and nothing live of it is in flight to a site that could show it.
pub fn what_is_forgotten_is_buried()
    ensures { WhatIsForgottenIsBuried }
{}

/// Sites do forget: of two, and of three of which one begins again in between; and of two sessions the one that ended alone.
pub fn sites_forget()
    ensures two { all_have_forgotten 2 two_sites ≡ true }
    ensures three { all_have_forgotten 3 three_sites ≡ true }
    ensures ended { all_have_forgotten 2 one_of_two ≡ true }
    ensures others { held_after 2 one_of_two 1 4 ≡ Live (8 ∷ []) }
{}
