// The types of numbers that stand in fields of a fixed width: most significant byte first, and two's complement where they have a sign.
ghost use Rattle.std.specs.Prelude.{◌≡◌, ◌^◌, ◌<◌, refl, ℕ, List};
ghost use Rattle.std.proofs.Common.{lit≤};
ghost use Rattle.wire.specs.Read.{Read};
ghost use Rattle.wire.specs.Formats.{u8 as byte_field, u16 as u16_field, u32 as u32_field, u64 as u64_field, s32 as s32_field, s64 as s64_field, signed_of, unsigned_of, half32, half64};
ghost use Rattle.wire.specs.Told.{Short, short};
ghost use Rattle.wire.specs.Fields.{IsField, unsigned_field, signed_field};

pub trait Number: Copy {
    // How many bytes the field has.
    ghost WIDTH: { ℕ };

    // What reading the field finds, and the bytes of a number.
    ghost read: { List ℕ → Read Short Self };

    ghost encode: { Self → List ℕ };

    // The number that bits stand for, and the bits that stand for a number.
    ghost of_bits: { ℕ → Self };

    ghost bits_of: { Self → ℕ };

    const WIDTH: usize;

    // Gives the number that bits stand for; of more bits than the field has, only the low ones count, and nothing is promised of them.
    fn from_bits(bits: u64) -> Self
        ensures { bits < 256 ^ WIDTH → result ≡ of_bits bits };

    fn to_bits(self) -> u64
        ensures { result ≡ bits_of self };

    ghost is_field: { IsField WIDTH read encode of_bits bits_of };
}

impl Number for u8 {
    ghost WIDTH = { 1 };

    ghost read = { (byte_field {ends = short}).read };

    ghost encode = { (byte_field {ends = short}).encode };

    ghost of_bits = { λ n. n };

    ghost bits_of = { λ n. n };

    const WIDTH: usize = 1;

    fn from_bits(bits: u64) -> u8 {
        (bits % 0x100) as u8
    }

    fn to_bits(self) -> u64 {
        u64::from(self)
    }

    ghost is_field = { unsigned_field 1 (lit≤ tt) (lit≤ tt) };
}

impl Number for u16 {
    ghost WIDTH = { 2 };

    ghost read = { (u16_field {ends = short}).read };

    ghost encode = { (u16_field {ends = short}).encode };

    ghost of_bits = { λ n. n };

    ghost bits_of = { λ n. n };

    const WIDTH: usize = 2;

    fn from_bits(bits: u64) -> u16 {
        (bits % 0x1_0000) as u16
    }

    fn to_bits(self) -> u64 {
        u64::from(self)
    }

    ghost is_field = { unsigned_field 2 (lit≤ tt) (lit≤ tt) };
}

impl Number for u32 {
    ghost WIDTH = { 4 };

    ghost read = { (u32_field {ends = short}).read };

    ghost encode = { (u32_field {ends = short}).encode };

    ghost of_bits = { λ n. n };

    ghost bits_of = { λ n. n };

    const WIDTH: usize = 4;

    fn from_bits(bits: u64) -> u32 {
        (bits % 0x1_0000_0000) as u32
    }

    fn to_bits(self) -> u64 {
        u64::from(self)
    }

    ghost is_field = { unsigned_field 4 (lit≤ tt) (lit≤ tt) };
}

impl Number for u64 {
    ghost WIDTH = { 8 };

    ghost read = { (u64_field {ends = short}).read };

    ghost encode = { (u64_field {ends = short}).encode };

    ghost of_bits = { λ n. n };

    ghost bits_of = { λ n. n };

    const WIDTH: usize = 8;

    fn from_bits(bits: u64) -> u64 {
        bits
    }

    fn to_bits(self) -> u64 {
        self
    }

    ghost is_field = { unsigned_field 8 (lit≤ tt) (lit≤ tt) };
}

impl Number for i32 {
    ghost WIDTH = { 4 };

    ghost read = { (s32_field {ends = short}).read };

    ghost encode = { (s32_field {ends = short}).encode };

    ghost of_bits = { signed_of half32 };

    ghost bits_of = { unsigned_of half32 };

    const WIDTH: usize = 4;

    fn from_bits(bits: u64) -> i32 {
        u32::from_bits(bits).cast_signed()
    }

    fn to_bits(self) -> u64 {
        u64::from(self.cast_unsigned())
    }

    ghost is_field = { signed_field 4 half32 refl (lit≤ tt) (lit≤ tt) };
}

impl Number for i64 {
    ghost WIDTH = { 8 };

    ghost read = { (s64_field {ends = short}).read };

    ghost encode = { (s64_field {ends = short}).encode };

    ghost of_bits = { signed_of half64 };

    ghost bits_of = { unsigned_of half64 };

    const WIDTH: usize = 8;

    fn from_bits(bits: u64) -> i64 {
        bits.cast_signed()
    }

    fn to_bits(self) -> u64 {
        self.cast_unsigned()
    }

    ghost is_field = { signed_field 8 half64 refl (lit≤ tt) (lit≤ tt) };
}
