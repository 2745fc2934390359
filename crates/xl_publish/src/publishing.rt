ghost use Rattle.std.specs.Prelude.{◌≡◌};

use crate::Publishers;

/// The publishers whose kept rolls make a list, and how many of them must name a member of it.
#[derive(Drop)]
pub struct Publishing {
    /// Their keys and their kept rolls.
    pub publishers: Publishers,
    /// How many kept rolls must name a member: 1 to 16.
    pub threshold: u32,
}

impl Publishing {
    /// The same once more.
    pub fn copy(&self) -> Publishing
        ensures { result ≡ self.now }
    {
        Publishing {
            publishers: self.publishers.copy(),
            threshold: self.threshold,
        }
    }
}
