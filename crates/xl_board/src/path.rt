ghost use Rattle.std.specs.Prelude.{◌≡◌, string_bytes};

use std::marker::Model;

/// The path of a file. Whether a file can be opened there is not known of it.
#[derive(Drop)]
pub struct FilePath {
    text: String,
}

impl Model for FilePath {
    ghost use Rattle.std.specs.Prelude.{ℕ, List, string_bytes};

    ghost Value = { List ℕ };

    ghost view = { λ path. string_bytes path.text };
}

impl FilePath {
    /// The path that is written so.
    pub fn of(text: String) -> FilePath
        ensures { result ≡ string_bytes text }
    {
        FilePath { text }
    }

    /// The path as it is written.
    pub fn as_str(&self) -> &str
        ensures { result.now ≡ self.now }
    {
        self.text.as_str()
    }
}
