ghost use Rattle.std.specs.Prelude.{◌≡◌, ◌≤◌, ◌++◌, [], OnOk, length, min, take};
ghost use Rattle.xl_tcp.specs.Connections.{bytes_ahead};

use std::alloc::{AllocError, Global};

/// How many bytes are moved at most, so that others can be let go of.
const MOST_MOVED: usize = 65_536;

/// Bytes that were read ahead, and that reads are still to give, in their order.
#[derive(Drop)]
pub(crate) struct Ahead {
    alloc: Global,
    bytes: Vec<u8>,
    given: usize,
}

impl Ahead {
    /// None yet. It holds no memory.
    pub(crate) fn new(alloc: Global) -> Self
        ensures { bytes_ahead result ≡ [] }
    {
        Ahead {
            alloc,
            bytes: Vec::new(alloc),
            given: 0,
        }
    }

    pub(crate) fn bytes(&self) -> &[u8]
        ensures { result.now ≡ bytes_ahead self.now }
    {
        match self.bytes.get(self.given..) {
            Some(bytes) => bytes,
            None => &[],
        }
    }

    /// How many they are.
    pub(crate) fn len(&self) -> usize
        ensures { result ≡ length (bytes_ahead self.now) }
    {
        self.bytes.len().saturating_sub(self.given)
    }

    /// Adds these behind them.
    pub(crate) fn put(&mut self, bytes: &[u8]) -> Result<(), AllocError>
        ensures { OnOk result (bytes_ahead self.new ≡ bytes_ahead self.old ++ bytes.now) }
    {
        self.forget_given()?;
        self.bytes.extend_from_slice(bytes)
    }

    /// Lets go of the bytes that were given, if they are more than are kept, and these are few enough to be moved.
    fn forget_given(&mut self) -> Result<(), AllocError>
        ensures same { OnOk result (bytes_ahead self.new ≡ bytes_ahead self.old) }
        ensures within { OnOk result (self.new.given ≤ length self.new.bytes.items) }
    {
        if self.given > self.len() && self.len() <= MOST_MOVED {
            let kept = self.bytes().to_vec(self.alloc)?;
            self.bytes = kept;
            self.given = 0;
        }
        Ok(())
    }

    /// Gives the first of them to the front of the room, as many as it holds, and lets go of the memory with the last.
    pub(crate) fn give(&mut self, room: &mut [u8]) -> usize
        ensures same { length room.new ≡ length room.old }
        ensures count { result ≡ min (length room.new) (length (bytes_ahead self.old)) }
        ensures given { bytes_ahead self.old ≡ take result room.new ++ bytes_ahead self.new }
    {
        let count = self.len().min(room.len());
        if count == 0 {
            return 0;
        }
        room[..count].copy_from_slice(&self.bytes[self.given..self.given + count]);
        self.given += count;
        if self.given >= self.bytes.len() {
            *self = Ahead::new(self.alloc);
        }
        count
    }
}
