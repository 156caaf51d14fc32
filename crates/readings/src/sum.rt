// A number for a whole row of numbers, in which each counts by its place.
ghost use Rattle.std.specs.Prelude.{◌≤◌};

const MODULUS: u32 = 65521;

pub fn sum(row: &[u16]) -> u16
    ensures { result ≤ 65520 }
{
    let mut sum: u16 = 0;
    for n in row {
        let next = u32::from(sum) * 257 + u32::from(*n) + 1;
        sum = (next % MODULUS) as u16;
    }
    sum
}
