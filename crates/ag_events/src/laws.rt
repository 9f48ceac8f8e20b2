//! What a printed line says.
ghost use Rattle.std.specs.Prelude.{◌≡◌, ◌≤◌, List, length, map};
ghost use Rattle.std.specs.List.{AllByRecursion};
ghost use Rattle.ag_model.specs.declared.config.Config.{Config};
ghost use Rattle.ag_model.specs.declared.event.Event.{Event};
ghost use Rattle.ag_built.specs.Built.{IsBuilt, most_events};
ghost use Rattle.ag_script.specs.Words.{Say, words_of};
ghost use Rattle.ag_script.specs.Lines.{words, IsScriptText};
ghost use Rattle.ag_events.specs.Texts.{word_text, event_text, script_text};
ghost use Rattle.ag_events.specs.Ranges.{IsSayable};

/// The words of an event, each as it is printed, say the event by the grammar.
pub fn words_say()
    ensures { (c : Config) (e : Event) → IsSayable c e → Say c e (map word_text (words_of c e)) }
{}

/// The line that is printed of an event says that event, whichever it is of the 42, and no other.
pub fn line_says()
    ensures says { (c : Config) (e : Event) → IsSayable c e → Say c e (words (event_text e)) }
    ensures only { (c : Config) (d e : Event) → IsSayable c e → Say c d (words (event_text e)) → d ≡ e }
{}

/// Printed lines, each with its end, are a script of their events, where these are built, and of no others.
pub fn script_says()
    ensures says { (c : Config) (es : List Event) → AllByRecursion (λ e. IsSayable c e × IsBuilt e) es → length es ≤ most_events → IsScriptText c (script_text es) es }
    ensures only { (c : Config) (ds es : List Event) → AllByRecursion (λ e. IsSayable c e × IsBuilt e) es → length es ≤ most_events → IsScriptText c (script_text es) ds → ds ≡ es }
{}
