//! Numbers of many digits, by which a fraction is rounded that is shown with an exponent.

ghost use Rattle.std.specs.Prelude.{◌≡◌, ◌+◌, ◌*◌, ◌^◌, ◌<◌, ◌≤◌, All, length, ℕ};
ghost use Rattle.arrayvec.specs.ArrayVec.{array_vec_len};
ghost use Rattle.pgp_value_text.specs.Tens.{value_of, BeginsWith, IsCut, IsHalfCut};
ghost use lib.Ieee.Nearest.{closest};

use crate::rounded::closest;
use arrayvec::ArrayVec;

// Limbs, digits to the base 10^9, that a number can have: four, and one more for each of 91 factors.
const LIMBS_LEN: usize = 96;

// What a number begins with, whether another digit than 0 follows, and how many limbs follow.
#[derive(Clone, Copy)]
struct Front {
    number: u128,
    more: bool,
    limbs: u32,
}

/// A rounded number, and the power of ten by which it is to be multiplied.
#[derive(Clone, Copy)]
pub(crate) struct Cut {
    pub number: u64,
    pub tens: u32,
}

// The product of a number and a factor.
fn times(limbs: &[u32], factor: u32) -> ArrayVec<u32, LIMBS_LEN>
    requires room { length limbs.now < 96 }
    requires factor { factor < 1_000_000_000 }
    requires digits { All (λ x. x < 1_000_000_000) limbs.now }
    ensures value { value_of result.items ≡ value_of limbs.now * factor }
    ensures digits { All (λ x. x < 1_000_000_000) result.items }
    ensures len { array_vec_len result ≡ length limbs.now + 1 }
{
    let mut product = ArrayVec::new();
    let mut carry = 0u64;
    'limbs: for limb in limbs {
        let sum = u64::from(*limb) * u64::from(factor) + carry;
        product.push((sum % 1_000_000_000) as u32);
        carry = sum / 1_000_000_000;
    }
    product.push(carry as u32);
    product
}

// num * 10^18 * base^count
#[tactic(auto, using(crate::proofs::Limbs::twelve))]
fn product(num: u64, base: u32, count: u32) -> ArrayVec<u32, LIMBS_LEN>
    requires small { (num < 2 ^ 53) × (base ≤ 5) × (count ≤ 1_080) }
    ensures value { value_of result.items ≡ num * 10 ^ 18 * base ^ count }
    ensures digits { All (λ x. x < 1_000_000_000) result.items }
{
    let mut limbs = ArrayVec::new();
    limbs.push(0);
    limbs.push(0);
    limbs.push((num % 1_000_000_000) as u32);
    limbs.push((num / 1_000_000_000) as u32);
    'twelve: for _ in 0..count / 12 {
        limbs = times(limbs.as_slice(), base.pow(12));
    }
    times(limbs.as_slice(), base.pow(count % 12))
}

// The same of a number with another limb at its end.
fn longer(front: Front, limb: u32) -> Front
    requires digit { limb < 1_000_000_000 }
    requires few { front.limbs < 96 }
    ensures front { (value : ℕ) → BeginsWith front.number front.more front.limbs value → BeginsWith result.number result.more result.limbs (limb + 1_000_000_000 * value) }
    ensures few { result.limbs ≤ front.limbs + 1 }
{
    if front.number < 1_000_000_000_000_000_000 {
        Front {
            number: front.number * 1_000_000_000 + u128::from(limb),
            ..front
        }
    } else if limb == 0 {
        Front {
            limbs: front.limbs + 1,
            ..front
        }
    } else {
        Front {
            more: true,
            limbs: front.limbs + 1,
            ..front
        }
    }
}

// What a number begins with.
fn front_of(limbs: &[u32]) -> Front
    requires digits { All (λ x. x < 1_000_000_000) limbs.now }
    requires few { length limbs.now ≤ 96 }
    ensures front { BeginsWith result.number result.more result.limbs (value_of limbs.now) }
    ensures few { result.limbs ≤ 96 }
{
    let mut front = Front {
        number: 0,
        more: false,
        limbs: 0,
    };
    'limbs: for back in 0..limbs.len() {
        front = longer(front, limbs[limbs.len() - 1 - back]);
    }
    front
}

// Half of a number, rounded to the least power of ten of which it is a number of no more than so many digits.
#[tactic(auto, using(crate::proofs::Limbs::tens_27, crate::proofs::Rounding::tens_pos, crate::proofs::Limbs::closest_one))]
fn cut_of(doubled: u128, digits: u32) -> Cut
    requires small { doubled < 2 * 10 ^ 27 }
    requires digits { (0 < digits) × (digits ≤ 15) }
    ensures cut { IsHalfCut digits doubled result.number result.tens }
    ensures tens { result.tens ≤ 27 }
{
    let limit = 10u128.pow(digits);
    'tens: for tens in 1..27 {
        let number = closest(doubled, 2 * 10u128.pow(tens));
        if number < limit {
            return Cut {
                number: number as u64,
                tens,
            };
        }
    }
    Cut {
        number: closest(doubled, 2 * 10u128.pow(27)) as u64,
        tens: 27,
    }
}

/// num * 10^18 * base^count, rounded to the least power of ten of which it is a number of no more than so many digits.
pub(crate) fn rounded_off(num: u64, base: u32, count: u32, digits: u32) -> Cut
    requires some { (0 < num) × (0 < base) }
    requires small { (num < 2 ^ 53) × (base ≤ 5) × (count ≤ 1_080) }
    requires digits { (0 < digits) × (digits ≤ 15) }
    ensures cut { IsCut digits (num * 10 ^ 18 * base ^ count) result.number result.tens }
    ensures tens { result.tens ≤ 900 }
{
    let front = front_of(product(num, base, count).as_slice());
    // An odd number stands for all that lie between two even ones: none is the middle of two that it may be rounded to.
    let cut = cut_of(front.number * 2 + u128::from(front.more), digits);
    Cut {
        number: cut.number,
        tens: cut.tens + 9 * front.limbs,
    }
}
