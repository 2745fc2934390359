ghost use Rattle.std.specs.Prelude.{◌≡◌};
ghost use Rattle.xl_settings.specs.Lines.{refused_text};

use crate::KeyName;
use xl_base::Bytes;

/// Why bytes hold no settings. The first cause that holds decides, in this order.
#[derive(Debug, Drop)]
pub enum SettingsRefusal {
    /// There are more than 1,048,576 bytes.
    Length,
    /// They are no TOML document in UTF-8, or a number in it is none of 64 bits.
    Text,
    /// The document has this unknown key, the least of those in the order of their bytes.
    Unknown(Bytes),
    /// The key is missing though it must stand, of another type, out of range, or refused by its own rule.
    Known(KeyName),
}

impl SettingsRefusal {
    /// What is refused: the key as it stands, or `length` or `text`.
    pub fn text(&self) -> &[u8]
        ensures { result.now ≡ refused_text self.now }
    {
        match self {
            SettingsRefusal::Length => b"length",
            SettingsRefusal::Text => b"text",
            SettingsRefusal::Unknown(text) => text.as_slice(),
            SettingsRefusal::Known(name) => name.text().as_bytes(),
        }
    }
}
