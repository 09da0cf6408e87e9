//! The law of AVPs that stand behind others.
ghost use Rattle.dia_base.specs.Behind.{SpellsBoth};

/// A law: the bytes of a message with further AVPs behind are those of the message that has both.
pub fn avps_behind_are_spelled()
    ensures { SpellsBoth }
{}
