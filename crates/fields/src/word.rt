// Flags and words in bytes.
ghost use Rattle.std.specs.Prelude.{◌≡◌, length};
ghost use Rattle.basics.specs.Ranges.{one};
ghost use Rattle.layout.specs.Layout.{word_size};
ghost use Rattle.layout.specs.Rows.{digits, spelled};

// 1 for true, 0 for false.
pub fn flag(on: bool) -> u8
    ensures { result ≡ one on }
{
    u8::from(on)
}

// A word in 8 bytes, the lowest first.
pub fn encode_word(word: u64, out: &mut [u8])
    requires { length out.old ≡ word_size }
    ensures { out.new ≡ digits word_size word }
{
    out.copy_from_slice(&word.to_le_bytes());
}

// The word that 8 bytes spell.
pub fn decode_word(bytes: &[u8]) -> u64
    requires { length bytes.now ≡ word_size }
    ensures { result ≡ spelled bytes.now }
{
    let mut word = [0; 8];
    word.copy_from_slice(bytes);
    u64::from_le_bytes(word)
}
