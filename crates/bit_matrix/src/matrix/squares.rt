//! Squares of 64 x 64 bits, turned by whole words.
ghost use Rattle.std.specs.Prelude.{◌≡◌, ◌<◌, ℕ};
ghost use Rattle.bit_matrix.specs.Squares.{IsLower, source_column, source_row, square_bit};

// Makes the rows of a square its columns, in six steps. Each step takes a word of the upper half and the one 32 words
// after it, and makes two neighbouring words of them: the first has their bits in columns whose digit `step` is 0,
// the second those in the other columns.
pub fn turn(square: &mut [u64; 64])
    ensures { (i j : ℕ) → i < 64 → j < 64 → square_bit square.new i j ≡ square_bit square.old j i }
{
    let mut other = [0u64; 64];
    weave(square, &mut other, 32, 0x0000_0000_FFFF_FFFF);
    weave(&other, square, 16, 0x0000_FFFF_0000_FFFF);
    weave(square, &mut other, 8, 0x00FF_00FF_00FF_00FF);
    weave(&other, square, 4, 0x0F0F_0F0F_0F0F_0F0F);
    weave(square, &mut other, 2, 0x3333_3333_3333_3333);
    weave(&other, square, 1, 0x5555_5555_5555_5555);
}

// One of the steps. The set bits of `lower` are the columns whose digit `step` is 0.
#[inline(always)]
fn weave(from: &[u64; 64], to: &mut [u64; 64], step: u8, lower: u64)
    requires { IsLower step lower }
    ensures { (i j : ℕ) → i < 64 → j < 64
        → square_bit to.new i j ≡ square_bit from.now (source_row step i j) (source_column step i j) }
{
    for i in 0..32 {
        let (low, high) = (from[i], from[i + 32]);
        let differing = (low >> step ^ high) & lower;
        to[2 * i] = low ^ differing << step;
        to[2 * i + 1] = high ^ differing;
    }
}
