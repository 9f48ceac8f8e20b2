//! Laws of the plain data.
ghost use Rattle.std.specs.Prelude.{◌≡◌, ◌<◌, ◌^◌, ℕ, List, length};
ghost use Rattle.std.specs.Int.{Width, byte_len, to_be_bytes, from_be_bytes};
ghost use Rattle.ag_model.specs.Bytes.{AreBytes};

/// Numbers as bytes, the highest first, at every width.
pub fn big_endian_numbers()
    // A number that was read, written again, gives the bytes that were read.
    ensures read_written { (w : Width) (bytes : List ℕ) → length bytes ≡ byte_len w → AreBytes bytes → to_be_bytes w (from_be_bytes w bytes) ≡ bytes }
    // A number that was written is read again.
    ensures written_read { (w : Width) (n : ℕ) → n < 256 ^ byte_len w → from_be_bytes w (to_be_bytes w n) ≡ n }
{}
