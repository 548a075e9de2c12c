// Whole numbers as fields of binary files.
ghost use Rattle.std.specs.Prelude.{◌≡◌, ◌≤◌, List, ℕ, length, refl};
ghost use Rattle.file_bytes.specs.Fields.{field_16, field_32, field_64};
ghost use Rattle.std.proofs.Common.{arith};

/// A whole number that a field of a file stands for, with its most significant byte first.
pub trait Field: Copy + Drop {
    /// How many bytes the field of each number has, from 1 to 8.
    ghost WIDTH: { ℕ };

    /// The same number.
    const WIDTH: usize;

    /// The bytes of a number's field.
    ghost field: { Self → List ℕ };

    /// The number that a field stands for.
    fn of(bytes: &[u8]) -> Self
        requires { length bytes.now ≡ WIDTH }
        ensures { field result ≡ bytes.now };

    /// Writes a number's field over bytes.
    fn fill(self, bytes: &mut [u8])
        requires { length bytes.old ≡ WIDTH }
        ensures { bytes.new ≡ field self };

    /// Eight bytes have room for a field.
    ghost few: { WIDTH ≤ 8 };

    /// Each field has so many bytes.
    ghost long: { (n : Self) → length (field n) ≡ WIDTH };
}

impl Field for u16 {
    ghost WIDTH = { 2 };

    const WIDTH: usize = 2;

    ghost field = { field_16 };

    fn of(bytes: &[u8]) -> u16 {
        u16::from_be_bytes([bytes[0], bytes[1]])
    }

    #[inline(always)]
    fn fill(self, bytes: &mut [u8]) {
        bytes.copy_from_slice(&self.to_be_bytes());
    }

    ghost few = { omega arith };

    ghost long = { λ n. refl };
}

impl Field for u32 {
    ghost WIDTH = { 4 };

    const WIDTH: usize = 4;

    ghost field = { field_32 };

    fn of(bytes: &[u8]) -> u32 {
        u32::from_be_bytes([bytes[0], bytes[1], bytes[2], bytes[3]])
    }

    #[inline(always)]
    fn fill(self, bytes: &mut [u8]) {
        bytes.copy_from_slice(&self.to_be_bytes());
    }

    ghost few = { omega arith };

    ghost long = { λ n. refl };
}

impl Field for u64 {
    ghost WIDTH = { 8 };

    const WIDTH: usize = 8;

    ghost field = { field_64 };

    fn of(bytes: &[u8]) -> u64 {
        u64::from_be_bytes([
            bytes[0], bytes[1], bytes[2], bytes[3], bytes[4], bytes[5], bytes[6], bytes[7],
        ])
    }

    #[inline(always)]
    fn fill(self, bytes: &mut [u8]) {
        bytes.copy_from_slice(&self.to_be_bytes());
    }

    ghost few = { omega arith };

    ghost long = { λ n. refl };
}
