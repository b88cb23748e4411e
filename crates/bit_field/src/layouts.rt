// The fields of a structure, and which of them holds a bit.

ghost use Rattle.std.specs.Prelude.{◌≡◌, ℕ, ◌<◌, ◌≤◌, Some};
ghost use Rattle.bit_field.specs.Layouts.{bits_of, located};

/// A field of a structure whose bits can be struck.
pub trait Field: Copy {
    /// Its number of bits.
    ghost width_of: { Self → ℕ };

    /// Its number of bits, at most 32.
    fn width(self) -> u32
        ensures width { result ≡ width_of self }
        ensures most { result ≤ 32 };
}

/// Which of these fields, one after another, holds a bit, and which of the field's own bits that is; both counted from 0.
pub fn field_at<F: Field>(fields: &[F], bit: u32) -> (F, u32)
    requires { bit < bits_of F.width_of fields.now }
    ensures field { located F.width_of fields.now bit ≡ Some result }
    ensures within { result.1 < F.width_of result.0 }
    ensures most { F.width_of result.0 ≤ 32 }
{
    let mut place = bit;
    for field in fields {
        let width = field.width();
        if place < width {
            return (*field, place);
        }
        place -= width;
    }
    unreachable!()
}
