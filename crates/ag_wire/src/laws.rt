//! Laws of the bytes of messages.
ghost use Rattle.std.specs.Prelude.{◌≡◌, Ok};
ghost use Rattle.ag_model.specs.declared.message.Message.{Message};
ghost use Rattle.ag_wire.specs.Spelling.{spelling, HasSpelling};
ghost use Rattle.ag_wire.specs.Reading.{reading};

/// Messages and their bytes, both ways.
pub fn spellings()
    // No two messages have the same bytes.
    ensures apart { (m n : Message) → HasSpelling m → HasSpelling n → spelling m ≡ spelling n → m ≡ n }
    // What is spelled so is read.
    ensures again { (m : Message) → HasSpelling m → reading (spelling m) ≡ Ok m }
{}
