//! The words of a command.
ghost use Rattle.std.specs.Prelude.{◌↔◌, IsTrue};
ghost use Rattle.ag_group.specs.CommandWords.{IsPlay};

/// Whether the words are the one word `play`.
pub(crate) fn is_play(words: &[String]) -> bool
    ensures { IsTrue result ↔ IsPlay words.now }
{
    match words {
        [word] => word.as_str() == "play",
        _ => false,
    }
}
