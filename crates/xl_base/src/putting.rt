ghost use Rattle.std.specs.Prelude.{◌≡◌, ◌^◌, ◌+◌, ◌<◌, ◌≤◌, length, take, drop};
ghost use Rattle.byteorder.specs.Endian.{big_bytes};
ghost use Rattle.xl_base.specs.Putting.{Puts};

/// Writes bytes at a place of the room.
pub fn put(room: &mut [u8], at: usize, bytes: &[u8])
    requires { at + length bytes.now ≤ length room.old }
    ensures { Puts at bytes.now room.old room.new }
{
    room[at..at + bytes.len()].copy_from_slice(bytes);
}

/// Writes a field of 32 bytes.
pub fn put_field(room: &mut [u8], at: usize, field: &[u8; 32])
    requires { at + 32 ≤ length room.old }
    ensures puts { Puts at field.now room.old room.new }
    ensures long { length field.now ≡ 32 }
{
    put(room, at, field);
}

/// Writes a number, its highest byte first.
pub fn put_u16(room: &mut [u8], at: usize, number: u16)
    requires { at + 2 ≤ length room.old }
    ensures puts { Puts at (big_bytes 2 number) room.old room.new }
    ensures below { number < 2 ^ 16 }
{
    put(room, at, &number.to_be_bytes());
}

/// Writes a number, its highest byte first.
pub fn put_u32(room: &mut [u8], at: usize, number: u32)
    requires { at + 4 ≤ length room.old }
    ensures puts { Puts at (big_bytes 4 number) room.old room.new }
    ensures below { number < 2 ^ 32 }
{
    put(room, at, &number.to_be_bytes());
}

/// Writes a number, its highest byte first.
pub fn put_u64(room: &mut [u8], at: usize, number: u64)
    requires { at + 8 ≤ length room.old }
    ensures puts { Puts at (big_bytes 8 number) room.old room.new }
    ensures below { number < 2 ^ 64 }
{
    put(room, at, &number.to_be_bytes());
}

/// The field of 32 bytes at a place.
pub fn bytes_at(bytes: &[u8], at: usize) -> [u8; 32]
    requires { at + 32 ≤ length bytes.now }
    ensures { result ≡ take 32 (drop at bytes.now) }
{
    let mut field = [0; 32];
    field.copy_from_slice(&bytes[at..at + 32]);
    field
}
