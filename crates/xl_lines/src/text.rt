ghost use Rattle.std.specs.Prelude.{◌≡◌, ℕ, List, [], string_bytes};

use std::alloc::Global;

/// What a machine puts its answers into: characters alone, or bytes whatever they are.
pub trait Text: Drop {
    /// The bytes that stand in it.
    ghost bytes: { Self → List ℕ };

    /// An empty one. It takes no memory.
    fn empty(alloc: Global) -> Self
        ensures { bytes result ≡ [] };

    /// Takes all out of it.
    fn clear(&mut self)
        ensures { bytes self.new ≡ [] };

    /// What stands in it.
    fn as_bytes(&self) -> &[u8]
        ensures { result.now ≡ bytes self.now };
}

impl Text for String {
    ghost bytes = { string_bytes };

    fn empty(alloc: Global) -> String {
        String::new(alloc)
    }

    fn clear(&mut self) {
        self.clear();
    }

    fn as_bytes(&self) -> &[u8] {
        self.as_bytes()
    }
}

impl Text for Vec<u8> {
    ghost bytes = { λ bytes. bytes.items };

    fn empty(alloc: Global) -> Vec<u8> {
        Vec::new(alloc)
    }

    fn clear(&mut self) {
        self.clear();
    }

    fn as_bytes(&self) -> &[u8] {
        self
    }
}
