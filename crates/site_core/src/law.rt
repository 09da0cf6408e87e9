//! What the definitions say of one another.
ghost use Rattle.std.specs.Prelude.{◌≡◌, ℕ, List};
ghost use Rattle.dia_codec.specs.Stream.{CutsInto};
ghost use Rattle.dia_codec.specs.declared.stream.StreamEnd.{StreamEnd};
ghost use Rattle.site_machine.specs.Sites.{SiteValue};
ghost use Rattle.site_core.specs.Conversations.{conversation, conversation_of};
ghost use Rattle.site_core.specs.Cuts.{cut_of};
ghost use Rattle.site_core.specs.Realms.{OwnFormServesEveryRealm};

/// A law: each stream is cut into its frames, and a conversation is on the frames of any cut.
pub fn one_conversation()
    ensures cut { (stream : List ℕ) → CutsInto stream (cut_of stream).frames (cut_of stream).end }
    ensures only { (site : SiteValue) (stream : List ℕ) (frames : List (List ℕ)) (end : StreamEnd)
        → CutsInto stream frames end
        → conversation_of site stream ≡ conversation site frames end }
{}

/// A law: in this project's own form a frame asks for the same in every realm.
pub fn own_form_serves_every_realm()
    ensures { OwnFormServesEveryRealm }
{}
