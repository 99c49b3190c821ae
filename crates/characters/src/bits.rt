// The ones in a body.
ghost use Rattle.std.specs.Prelude.{◌≡◌};
ghost use Rattle.characters.specs.Bits.{odd, bits_of};
ghost use Rattle.characters.specs.Wire.{n_char_character};

// Whether the ones in a data character's body are odd in number.
pub(crate) fn odd_ones(v: u8) -> bool
    ensures { result ≡ odd (bits_of 8 v) }
{
    v.count_ones() % 2 == 1
}

// Whether the ones in the body of an N-Char's character are odd in number: an end has one.
pub(crate) fn odd_n_char(n: u16) -> bool
    ensures { result ≡ odd (n_char_character n).body }
{
    u8::try_from(n).map_or(true, odd_ones)
}
