//! Reading numbers.

ghost use Rattle.std.specs.Prelude.{◌≡◌, option_map};
ghost use Rattle.std.specs.Int.{from_be_bytes, from_le_bytes, w16, w32, w64};
ghost use Rattle.seq_reader.specs.Reading.{front, moved, read_of, rest_of};

use crate::reader::SeqReader;
use span_seq::Spans;

impl<C: Spans> SeqReader<'_, C> {
    /// Reads a number of 2 bytes, the most significant first, as `TryReadBigEndian`.
    #[inline]
    pub fn read_u16_be(&mut self) -> Option<u16>
        ensures value { result ≡ option_map (from_be_bytes w16) (front 2 (rest_of self.old)) }
        ensures place { self.new ≡ moved self.old (read_of result 2) }
    {
        Some(u16::from_be_bytes(self.read_bytes::<2>()?))
    }

    /// Reads a number of 2 bytes, the least significant first, as `TryReadLittleEndian`.
    pub fn read_u16_le(&mut self) -> Option<u16>
        ensures value { result ≡ option_map (from_le_bytes w16) (front 2 (rest_of self.old)) }
        ensures place { self.new ≡ moved self.old (read_of result 2) }
    {
        Some(u16::from_le_bytes(self.read_bytes::<2>()?))
    }

    /// Reads a number of 4 bytes, the most significant first, as `TryReadBigEndian`.
    #[inline]
    pub fn read_u32_be(&mut self) -> Option<u32>
        ensures value { result ≡ option_map (from_be_bytes w32) (front 4 (rest_of self.old)) }
        ensures place { self.new ≡ moved self.old (read_of result 4) }
    {
        Some(u32::from_be_bytes(self.read_bytes::<4>()?))
    }

    /// Reads a number of 4 bytes, the least significant first, as `TryReadLittleEndian`.
    pub fn read_u32_le(&mut self) -> Option<u32>
        ensures value { result ≡ option_map (from_le_bytes w32) (front 4 (rest_of self.old)) }
        ensures place { self.new ≡ moved self.old (read_of result 4) }
    {
        Some(u32::from_le_bytes(self.read_bytes::<4>()?))
    }

    /// Reads a number of 8 bytes, the most significant first, as `TryReadBigEndian`.
    pub fn read_u64_be(&mut self) -> Option<u64>
        ensures value { result ≡ option_map (from_be_bytes w64) (front 8 (rest_of self.old)) }
        ensures place { self.new ≡ moved self.old (read_of result 8) }
    {
        Some(u64::from_be_bytes(self.read_bytes::<8>()?))
    }

    /// Reads a number of 8 bytes, the least significant first, as `TryReadLittleEndian`.
    pub fn read_u64_le(&mut self) -> Option<u64>
        ensures value { result ≡ option_map (from_le_bytes w64) (front 8 (rest_of self.old)) }
        ensures place { self.new ≡ moved self.old (read_of result 8) }
    {
        Some(u64::from_le_bytes(self.read_bytes::<8>()?))
    }

    // Reads the next N bytes, which mostly lie in one span.
    #[inline]
    fn read_bytes<const N: usize>(&mut self) -> Option<[u8; N]>
        ensures value { result ≡ front N (rest_of self.old) }
        ensures place { self.new ≡ moved self.old (read_of result N) }
    {
        let mut bytes = [0; N];
        match self.unread_span().first_chunk::<N>() {
            Some(chunk) => bytes = *chunk,
            None => {
                if !self.copy_to(&mut bytes) {
                    return None;
                }
            }
        }
        self.advance(N as u64);
        Some(bytes)
    }
}
