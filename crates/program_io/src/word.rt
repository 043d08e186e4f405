// A word behind a program's name.
ghost use Rattle.std.specs.Prelude.{◌≡◌, ◌↔◌, IsTrue, string_bytes};

/// The word is this text.
pub fn is_word(word: &String, text: &str) -> bool
    ensures { IsTrue result ↔ (string_bytes word.now ≡ text.now) }
{
    word.as_str() == text
}
