//! Laws of handshakes. A caller learns one by calling its function, which does nothing.

ghost use Rattle.chess_match_laws.specs.Handshakes.{BothHaveNeeded, ItemsAreAnswered, NamesAreKnown, PrefixesAreAsAsked};
ghost use Rattle.chess_match_laws.specs.OfActs.{AtEachLine, AtEachMoment, AtEachOpening};

/// States a law and does nothing: whenever a line of an engine is read, the engine was sent an answer to each item of
/// its `feature` lines before it, in order: `accepted NAME` or `rejected NAME`. 16 names are accepted, and some others
/// are rejected.
pub fn features_are_answered()
    ensures answered { AtEachLine ItemsAreAnswered }
    ensures names { NamesAreKnown }
{}

/// States a law and does nothing: whenever a side is asked for its move (the clock is read for the opening of its
/// turn), both engines have what the match needs: `ping`; `setboard`, if a FEN is sent; and Chess960, if the game is of
/// it.
pub fn engines_have_what_is_needed()
    ensures { AtEachOpening BothHaveNeeded }
{}

/// States a law and does nothing: each move that an engine is sent (a block of lines that could not be sent counts) has
/// `usermove ` before it if the engine has that feature on, and otherwise not. This holds at each moment of a match.
pub fn prefixes_are_as_asked()
    ensures { AtEachMoment PrefixesAreAsAsked }
{}
