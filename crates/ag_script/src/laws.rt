//! The grammar, both ways.
ghost use Rattle.std.specs.Prelude.{◌≡◌, List, ℕ, Some};
ghost use Rattle.ag_model.specs.declared.config.Config.{Config};
ghost use Rattle.ag_model.specs.declared.event.Event.{Event};
ghost use Rattle.ag_script.specs.Words.{Say};
ghost use Rattle.ag_script.specs.Named.{event_at};
ghost use Rattle.ag_script.specs.Lines.{IsScriptText, IsFirstBad, IsTooMany};

/// What is read from the words of a line is what they say, and what they say is read.
pub fn both_ways()
    ensures takes { (c : Config) (texts : List (List ℕ)) (e : Event) → event_at c texts ≡ Some e → Say c e texts }
    ensures again { (c : Config) (texts : List (List ℕ)) (e : Event) → Say c e texts → event_at c texts ≡ Some e }
    // so they say one event at most
    ensures one { (c : Config) (texts : List (List ℕ)) (d e : Event) → Say c d texts → Say c e texts → d ≡ e }
{}

/// A text is a script of one list of events, or has one first bad line, or has too many events, and never two of these.
pub fn one_outcome()
    ensures one_script { (c : Config) (text : List ℕ) (ds es : List Event) → IsScriptText c text ds → IsScriptText c text es → ds ≡ es }
    ensures one_bad { (c : Config) (text : List ℕ) (before again : ℕ) → IsFirstBad c text before → IsFirstBad c text again → before ≡ again }
    ensures script_bad { (c : Config) (text : List ℕ) (es : List Event) (before : ℕ) → IsScriptText c text es → IsFirstBad c text before → ⊥ }
    ensures script_many { (c : Config) (text : List ℕ) (es : List Event) → IsScriptText c text es → IsTooMany c text → ⊥ }
    ensures bad_many { (c : Config) (text : List ℕ) (before : ℕ) → IsFirstBad c text before → IsTooMany c text → ⊥ }
{}
