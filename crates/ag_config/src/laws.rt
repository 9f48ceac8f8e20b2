//! What definitions say of worked examples.
ghost use Rattle.std.specs.Prelude.{◌≡◌, [], ◌∷◌, codes, Ok, Err};
ghost use Rattle.ag_model.specs.declared.config.Mode.TheVariants.{Sync, Auto};
ghost use Rattle.ag_config.specs.declared.fault.ConfigKey.TheVariants.{Pages, Unknown};
ghost use Rattle.ag_config.specs.Head.{config_of_head};

/// Heads, and what they say.
pub fn example_heads()
    ensures empty { config_of_head [] ≡ Ok (record { pages = 16; modes = Sync ∷ Sync ∷ []; workers = 4; readers = 2 }) }
    ensures replicas { config_of_head (codes "replicas = ['auto', 'sync']\npages = 0x40\n") ≡ Ok (record { pages = 64; modes = Auto ∷ Sync ∷ []; workers = 4; readers = 2 }) }
    ensures pages { config_of_head (codes "pages = 8\n") ≡ Err Pages }
    ensures unknown { config_of_head (codes "pages = 8\nformat = 1\n") ≡ Err Unknown }
{}
