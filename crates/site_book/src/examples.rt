//! Worked examples: after three calls, of which the first seat made the first and the last, receipts as they were given, and
//! altered ones.
ghost use Rattle.std.specs.Prelude.{◌≡◌, true, false, Some, None};
ghost use Rattle.pcrf_model.specs.Replies.{ReplyValue};
ghost use Rattle.pcrf_model.specs.Steps.{SiteEvent};
ghost use Rattle.site_book.specs.Books.{receipt_of};
ghost use Rattle.site_book.specs.Samples.{is_placed_there, three_calls};
ghost use Rattle.site_book.specs.Settling.{Fails, claim};
ghost use Rattle.site_book.specs.declared.fault.SettleFault.TheVariants.{WrongContent};

/// Each receipt as it was given names a place of its seat, above the one before.
pub fn receipts_as_given_are_placed()
    ensures first { (e : SiteEvent) → (r : ReplyValue) → is_placed_there e r 0 None 0 ≡ true }
    ensures second { (e : SiteEvent) → (r : ReplyValue) → is_placed_there e r 1 None 1 ≡ true }
    ensures third { (e : SiteEvent) → (r : ReplyValue) → is_placed_there e r 0 (Some 0) 2 ≡ true }
{}

/// The first seat's last one, lowered to its first or raised past the history, and the first ones of both seats, exchanged.
pub fn altered_places_are_refused()
    ensures lowered { (e : SiteEvent) → (r : ReplyValue)
        → is_placed_there e r 0 (Some 0) 0 ≡ false }
    ensures raised { (e : SiteEvent) → (r : ReplyValue)
        → is_placed_there e r 0 (Some 0) 3 ≡ false }
    ensures ours { (e : SiteEvent) → (r : ReplyValue) → is_placed_there e r 0 None 1 ≡ false }
    ensures theirs { (e : SiteEvent) → (r : ReplyValue) → is_placed_there e r 1 None 0 ≡ false }
{}

/// The first seat's last one, with another event or another reply.
pub fn altered_content_is_refused()
    ensures event { (e : SiteEvent) → (o : SiteEvent) → (r : ReplyValue) → (o ≡ e → ⊥)
        → Fails (three_calls e r) (claim 0 (Some 0) (receipt_of 2 o r)) WrongContent }
    ensures reply { (e : SiteEvent) → (r : ReplyValue) → (o : ReplyValue) → (o ≡ r → ⊥)
        → Fails (three_calls e r) (claim 0 (Some 0) (receipt_of 2 e o)) WrongContent }
{}
