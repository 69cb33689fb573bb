//! A law of time controls, as cecp_engine parses and writes them. A caller learns it by calling its function, which
//! does nothing.

ghost use Rattle.std.specs.Prelude.{◌≡◌, ◌≤◌, ℕ, List, Some};
ghost use Rattle.cecp_engine.specs.Levels.{LevelSeen, level_of, level_text};

/// States a law and does nothing: a level (time control) that is written is parsed as the same level, if it was parsed
/// before, or if it has at most 999 moves, a base below 60,000,000 and an increment below 1,000,000 milliseconds.
pub fn levels_are_parsed_back()
    ensures parsed { (text : List ℕ) (level : LevelSeen) → level_of text ≡ Some level
        → level_of (level_text level) ≡ Some level }
    ensures ranges { (moves base increment : ℕ) → moves ≤ 999 → base ≤ 59999999 → increment ≤ 999999
        → level_of (level_text (record { moves = moves; base = base; increment = increment }))
        ≡ Some (record { moves = moves; base = base; increment = increment }) }
{}
