//! What is left to read of octets.

ghost use Rattle.std.specs.Prelude.{ℕ};
ghost use Rattle.std.specs.Int.{w16, w32, w64};
ghost use Rattle.amqp_types.specs.Reading.{octet_at, octets_at, number_at, short_string_at, long_string_at};
ghost use Rattle.amqp_methods.specs.Heard.{ReadsOff};

/// What is left to read of octets.
#[derive(Clone, Copy)]
pub struct Rest<'a> {
    pub bytes: &'a [u8],
}

impl<'a> Rest<'a> {
    /// One octet.
    pub fn octet(&mut self) -> Option<u8>
        ensures { ReadsOff (λ n. n) result self.new.bytes.now (octet_at self.old.bytes.now) }
    {
        if self.bytes.is_empty() {
            return None;
        }
        let octet = self.bytes[0];
        self.bytes = &self.bytes[1..];
        Some(octet)
    }

    /// So many octets.
    pub fn octets(&mut self, count: usize) -> Option<&'a [u8]>
        ensures { ReadsOff (λ front. front.now) result self.new.bytes.now (octets_at count self.old.bytes.now) }
    {
        if self.bytes.len() < count {
            return None;
        }
        let front = &self.bytes[..count];
        self.bytes = &self.bytes[count..];
        Some(front)
    }

    /// A number of 16 bits, the highest octet first.
    pub fn number16(&mut self) -> Option<u16>
        ensures { ReadsOff (λ n. n) result self.new.bytes.now (number_at w16 self.old.bytes.now) }
    {
        let mut octets = [0; 2];
        octets.copy_from_slice(self.octets(2)?);
        Some(u16::from_be_bytes(octets))
    }

    /// A number of 64 bits, the highest octet first.
    pub fn number64(&mut self) -> Option<u64>
        ensures { ReadsOff (λ n. n) result self.new.bytes.now (number_at w64 self.old.bytes.now) }
    {
        let mut octets = [0; 8];
        octets.copy_from_slice(self.octets(8)?);
        Some(u64::from_be_bytes(octets))
    }

    /// The octets of a short string: at most 255.
    #[tactic(auto, unfolding(amqp_types::specs::Reading::short_string_at))]
    pub fn short(&mut self) -> Option<&'a [u8]>
        ensures { ReadsOff (λ content. content.now) result self.new.bytes.now (short_string_at self.old.bytes.now) }
    {
        let length = self.octet()?;
        self.octets(length as usize)
    }

    /// A number of 32 bits, the highest octet first.
    pub fn number32(&mut self) -> Option<u32>
        ensures { ReadsOff (λ n. n) result self.new.bytes.now (number_at w32 self.old.bytes.now) }
    {
        let mut octets = [0; 4];
        octets.copy_from_slice(self.octets(4)?);
        Some(u32::from_be_bytes(octets))
    }

    /// The octets of a long string: at most 2 ^ 32 - 1.
    #[tactic(auto, unfolding(amqp_types::specs::Reading::long_string_at))]
    pub fn long(&mut self) -> Option<&'a [u8]>
        ensures { ReadsOff (λ content. content.now) result self.new.bytes.now (long_string_at self.old.bytes.now) }
    {
        let length = self.number32()?;
        self.octets(length as usize)
    }
}
