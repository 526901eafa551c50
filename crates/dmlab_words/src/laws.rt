ghost use Rattle.dmlab_words.specs.Flags.{FlagsAreTold};

/// Whatever the words are, a flag has no other text than `true` and `false`.
pub fn flags_are_told()
    ensures told { FlagsAreTold }
{}
