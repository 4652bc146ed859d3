#![tactic(auto)]
// The sums of a block of each length, by its pairs. Each length has its `impl`s: M / 3 can't be computed from M in a const argument, no const parameter can choose a static, and a macro may write no `impl`.
ghost use Rattle.level.specs.Spots.{near_2, far_2, near_4, far_4, near_6, far_6, near_12, far_12, near_18, far_18, near_36, far_36, near_54, far_54, near_108, far_108};

mod numbers;

use level::{
    Pairing, Summing, WideSumming, all_by_itself, all_by_third, all_of_wide, by_itself, by_third,
};

pub struct Block2;

impl Pairing<2, 2> for Block2 {
    ghost near = { near_2 };

    ghost far = { far_2 };

    #[inline(always)]
    fn pair_sums(z: &[i32; 2], p: &mut [i64; 2], m: &mut [i64; 2]) {
        by_itself(z, &numbers::KERNEL_2, p, m)
    }
}

pub struct Block4;

impl Pairing<4, 4> for Block4 {
    ghost near = { near_4 };

    ghost far = { far_4 };

    #[inline(always)]
    fn pair_sums(z: &[i32; 4], p: &mut [i64; 4], m: &mut [i64; 4]) {
        by_itself(z, &numbers::KERNEL_4, p, m)
    }
}

pub struct Block6;

impl Pairing<6, 2> for Block6 {
    ghost near = { near_6 };

    ghost far = { far_6 };

    #[inline(always)]
    fn pair_sums(z: &[i32; 6], p: &mut [i64; 2], m: &mut [i64; 2]) {
        by_third::<6, 2, 2, Block2>(z, &numbers::LEVEL_6, p, m)
    }
}

pub struct Block12;

impl Pairing<12, 4> for Block12 {
    ghost near = { near_12 };

    ghost far = { far_12 };

    #[inline(always)]
    fn pair_sums(z: &[i32; 12], p: &mut [i64; 4], m: &mut [i64; 4]) {
        by_third::<12, 4, 4, Block4>(z, &numbers::LEVEL_12, p, m)
    }
}

pub struct Block18;

impl Pairing<18, 6> for Block18 {
    ghost near = { near_18 };

    ghost far = { far_18 };

    #[inline(always)]
    fn pair_sums(z: &[i32; 18], p: &mut [i64; 6], m: &mut [i64; 6]) {
        by_third::<18, 6, 2, Block6>(z, &numbers::LEVEL_18, p, m)
    }
}

pub struct Block36;

impl Pairing<36, 12> for Block36 {
    ghost near = { near_36 };

    ghost far = { far_36 };

    #[inline(never)]
    fn pair_sums(z: &[i32; 36], p: &mut [i64; 12], m: &mut [i64; 12]) {
        by_third::<36, 12, 4, Block12>(z, &numbers::LEVEL_36, p, m)
    }
}

pub struct Block54;

impl Pairing<54, 18> for Block54 {
    ghost near = { near_54 };

    ghost far = { far_54 };

    #[inline(never)]
    fn pair_sums(z: &[i32; 54], p: &mut [i64; 18], m: &mut [i64; 18]) {
        by_third::<54, 18, 6, Block18>(z, &numbers::LEVEL_54, p, m)
    }
}

pub struct Block108;

impl Pairing<108, 36> for Block108 {
    ghost near = { near_108 };

    ghost far = { far_108 };

    #[inline(never)]
    fn pair_sums(z: &[i32; 108], p: &mut [i64; 36], m: &mut [i64; 36]) {
        by_third::<108, 36, 12, Block36>(z, &numbers::LEVEL_108, p, m)
    }
}

// ---- all sums

impl Summing<2> for Block2 {
    #[inline(always)]
    fn block_sums(z: &[i32; 2], t: &mut [i64; 2]) {
        all_by_itself(z, &numbers::KERNEL_2, t)
    }
}

impl Summing<4> for Block4 {
    #[inline(always)]
    fn block_sums(z: &[i32; 4], t: &mut [i64; 4]) {
        all_by_itself(z, &numbers::KERNEL_4, t)
    }
}

impl Summing<6> for Block6 {
    #[inline(always)]
    fn block_sums(z: &[i32; 6], t: &mut [i64; 6]) {
        all_by_third::<6, 2, Block6, Block2>(z, &numbers::OF_6, t)
    }
}

impl Summing<12> for Block12 {
    #[inline(always)]
    fn block_sums(z: &[i32; 12], t: &mut [i64; 12]) {
        all_by_third::<12, 4, Block12, Block4>(z, &numbers::OF_12, t)
    }
}

impl Summing<18> for Block18 {
    #[inline(always)]
    fn block_sums(z: &[i32; 18], t: &mut [i64; 18]) {
        all_by_third::<18, 6, Block18, Block6>(z, &numbers::OF_18, t)
    }
}

impl Summing<36> for Block36 {
    #[inline]
    fn block_sums(z: &[i32; 36], t: &mut [i64; 36]) {
        all_by_third::<36, 12, Block36, Block12>(z, &numbers::OF_36, t)
    }
}

impl Summing<54> for Block54 {
    #[inline(never)]
    fn block_sums(z: &[i32; 54], t: &mut [i64; 54]) {
        all_by_third::<54, 18, Block54, Block18>(z, &numbers::OF_54, t)
    }
}

impl Summing<108> for Block108 {
    #[inline(never)]
    fn block_sums(z: &[i32; 108], t: &mut [i64; 108]) {
        all_by_third::<108, 36, Block108, Block36>(z, &numbers::OF_108, t)
    }
}

// ---- all sums of wide numbers

impl WideSumming<2> for Block2 {
    #[inline(always)]
    fn wide_sums(z: &[i32; 2], t: &mut [i64; 2]) {
        all_by_itself(z, &numbers::KERNEL_2, t)
    }
}

impl WideSumming<4> for Block4 {
    #[inline(always)]
    fn wide_sums(z: &[i32; 4], t: &mut [i64; 4]) {
        all_by_itself(z, &numbers::KERNEL_4, t)
    }
}

impl WideSumming<6> for Block6 {
    #[inline(always)]
    fn wide_sums(z: &[i32; 6], t: &mut [i64; 6]) {
        all_of_wide::<6, 2, Block6, Block2>(z, &numbers::OF_6, t)
    }
}

impl WideSumming<12> for Block12 {
    #[inline(always)]
    fn wide_sums(z: &[i32; 12], t: &mut [i64; 12]) {
        all_of_wide::<12, 4, Block12, Block4>(z, &numbers::OF_12, t)
    }
}

impl WideSumming<18> for Block18 {
    #[inline(always)]
    fn wide_sums(z: &[i32; 18], t: &mut [i64; 18]) {
        all_of_wide::<18, 6, Block18, Block6>(z, &numbers::OF_18, t)
    }
}

impl WideSumming<36> for Block36 {
    #[inline(never)]
    fn wide_sums(z: &[i32; 36], t: &mut [i64; 36]) {
        all_of_wide::<36, 12, Block36, Block12>(z, &numbers::OF_36, t)
    }
}

impl WideSumming<54> for Block54 {
    #[inline(never)]
    fn wide_sums(z: &[i32; 54], t: &mut [i64; 54]) {
        all_of_wide::<54, 18, Block54, Block18>(z, &numbers::OF_54, t)
    }
}

impl WideSumming<108> for Block108 {
    #[inline(never)]
    fn wide_sums(z: &[i32; 108], t: &mut [i64; 108]) {
        all_of_wide::<108, 36, Block108, Block36>(z, &numbers::OF_108, t)
    }
}
