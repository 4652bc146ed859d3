// The cosine table, the window and the kernels, read at any place. The facts about them are in specs/.
// No function here is a public call: the public calls and `listing` call `is_tabled`. The others are read by `shares` and by test programs: the bank lends the
// tables of `windows`, `blocks` and `split`, which are proved from the same definitions. Who reads the table is lent it, with the
// clause that it is the definition's: `quarter_turn` makes it, as docs/READING.md says.
#![tactic(auto)]

ghost use Rattle.std.specs.Prelude.{◌≡◌, ◌≤◌, ◌<◌, ◌*◌, ◌/◌, T, pos};
ghost use Rattle.cosine.specs.Cosine.{quarter, first_quarter, C};
ghost use Rattle.cosine.specs.TableLaws.{numbers};
ghost use Rattle.cosine.specs.Kernels.{tabled, d, W, short_rise, rising, falling, K, L};

// The parts that a turn is cut in, and the parts of it that the table, the window and the kernels need.
const TURN: usize = 864;

const HALF_TURN: usize = TURN / 2;

const QUARTER: usize = TURN / 4;

// C(0) .. C(216).
const COS: [i32; 217] = [
    67108864, 67107089, 67101766, 67092894, 67080474, 67064506, 67044991, 67021931, 66995326,
    66965179, 66931490, 66894261, 66853495, 66809193, 66761357, 66709992, 66655098, 66596679,
    66534738, 66469279, 66400304, 66327818, 66251824, 66172327, 66089330, 66002837, 65912855,
    65819386, 65722437, 65622011, 65518116, 65410756, 65299936, 65185663, 65067943, 64946781,
    64822185, 64694161, 64562715, 64427855, 64289588, 64147921, 64002861, 63854417, 63702595,
    63547405, 63388854, 63226951, 63061704, 62893122, 62721214, 62545989, 62367457, 62185626,
    62000506, 61812107, 61620440, 61425514, 61227339, 61025926, 60821286, 60613429, 60402367,
    60188111, 59970671, 59750060, 59526289, 59299370, 59069315, 58836137, 58599846, 58360457,
    58117981, 57872432, 57623822, 57372164, 57117473, 56859761, 56599042, 56335330, 56068638,
    55798981, 55526373, 55250829, 54972363, 54690990, 54406724, 54119581, 53829576, 53536724,
    53241041, 52942543, 52641244, 52337162, 52030311, 51720709, 51408372, 51093316, 50775559,
    50455115, 50132004, 49806241, 49477845, 49146831, 48813219, 48477025, 48138267, 47796964,
    47453133, 47106792, 46757960, 46406656, 46052897, 45696702, 45338091, 44977083, 44613695,
    44247949, 43879862, 43509455, 43136746, 42761757, 42384506, 42005013, 41623299, 41239384,
    40853288, 40465031, 40074635, 39682119, 39287504, 38890812, 38492063, 38091278, 37688479,
    37283687, 36876923, 36468209, 36057566, 35645017, 35230582, 34814284, 34396145, 33976187,
    33554432, 33130903, 32705621, 32278610, 31849892, 31419489, 30987425, 30553722, 30118403,
    29681492, 29243010, 28802982, 28361431, 27918381, 27473853, 27027873, 26580463, 26131648,
    25681450, 25229895, 24777005, 24322805, 23867319, 23410570, 22952583, 22493383, 22032993,
    21571437, 21108741, 20644929, 20180025, 19714053, 19247039, 18779007, 18309982, 17839989,
    17369052, 16897197, 16424448, 15950830, 15476369, 15001090, 14525017, 14048176, 13570592,
    13092290, 12613296, 12133635, 11653332, 11172413, 10690903, 10208828, 9726212, 9243083,
    8759464, 8275383, 7790864, 7305932, 6820615, 6334936, 5848923, 5362600, 4875994, 4389130,
    3902033, 3414731, 2927248, 2439609, 1951842, 1463972, 976024, 488025, 0,
];

// N is 12, 24, 36, 72, 108 or 216.
#[tactic(auto, unfolding(crate::specs::Kernels::tabled, crate::specs::Kernels::lengths, arithmetic::specs::Lists::every))]
pub fn is_tabled(n: usize) -> bool
    ensures { result ≡ tabled n }
{
    n == 12 || n == 24 || n == 36 || n == 72 || n == 108 || n == 216
}

// C(0) .. C(216), to be lent.
pub fn quarter_turn() -> [i32; 217]
    ensures { result ≡ numbers }
{
    COS
}

// C on the first quarter of the turn.
fn first_quarter(cos: &[i32; 217], t: usize) -> i64
    requires cos_value { cos.now ≡ numbers }
    requires t_le_quarter { t ≤ quarter }
    ensures { result ≡ first_quarter t }
{
    cos[t] as i64
}

// C(t) for every t from 0. A negative angle is handed in with a turn added.
pub fn cosine(cos: &[i32; 217], t: usize) -> i64
    requires { cos.now ≡ numbers }
    ensures { result ≡ C (pos t) }
{
    let r = t % TURN;
    if r <= QUARTER {
        return first_quarter(cos, r);
    }
    if r <= HALF_TURN {
        return -first_quarter(cos, HALF_TURN - r);
    }
    if r < HALF_TURN + QUARTER {
        return -first_quarter(cos, r - HALF_TURN);
    }
    first_quarter(cos, TURN - r)
}

// d = 216/N of a tabled N, without a division. `if` and not `match`: its last arm has to know that N is none of the others.
fn parts(n: usize) -> usize
    requires { T (tabled n) }
    ensures { result ≡ d n }
{
    if n == 12 {
        return 18;
    }
    if n == 24 {
        return 9;
    }
    if n == 36 {
        return 6;
    }
    if n == 72 {
        return 3;
    }
    if n == 108 {
        return 2;
    }
    1
}

// The window W(i). Its angle d × (N - 2i - 1) is a quarter less d × (2i + 1): with a turn added it is not negative.
pub fn window(cos: &[i32; 217], n: usize, i: usize) -> i64
    requires cos_value { cos.now ≡ numbers }
    requires tabled { T (tabled n) × (i < n) }
    ensures { result ≡ W n i }
{
    let d = parts(n);
    cosine(cos, TURN + QUARTER - d * (2 * i + 1))
}

// Entry i of a short rising half. Its rise has R = M/3 entries, and 108/R is 3d.
fn short_rise(cos: &[i32; 217], n: usize, i: usize) -> i64
    requires cos_value { cos.now ≡ numbers }
    requires tabled { T (tabled n) × (i < n / 2) }
    ensures { result ≡ short_rise n i }
{
    let third = n / 6;
    if i < third {
        return 0;
    }
    if i < 2 * third {
        let d = parts(n);
        return cosine(cos, QUARTER - 3 * d * (2 * (i - third) + 1));
    }
    67108864
}

// Entry i of the rising half of a joint of this shape, a number as in the definition: 0 is long, any other short.
pub fn rising(cos: &[i32; 217], shape: u32, n: usize, i: usize) -> i64
    requires cos_value { cos.now ≡ numbers }
    requires tabled { T (tabled n) × (i < n / 2) }
    ensures { result ≡ rising shape n i }
{
    if shape == 0 {
        return window(cos, n, i);
    }
    short_rise(cos, n, i)
}

// Entry i of the falling half, which is its mirror.
pub fn falling(cos: &[i32; 217], shape: u32, n: usize, i: usize) -> i64
    requires cos_value { cos.now ≡ numbers }
    requires tabled { T (tabled n) × (i < n / 2) }
    ensures { result ≡ falling shape n i }
{
    rising(cos, shape, n, n / 2 - 1 - i)
}

// The kernel K(i,k).
pub fn kernel(cos: &[i32; 217], n: usize, i: usize, k: usize) -> i64
    requires cos_value { cos.now ≡ numbers }
    requires tabled { T (tabled n) × (i < n) × (k < n / 2) }
    ensures { result ≡ K n i k }
{
    let d = parts(n);
    cosine(cos, d * (2 * i + 1 + n / 2) * (2 * k + 1))
}

// The short kernel L(i,k).
pub fn short_kernel(cos: &[i32; 217], n: usize, i: usize, k: usize) -> i64
    requires cos_value { cos.now ≡ numbers }
    requires tabled { T (tabled n) × (i < n / 3) × (k < n / 6) }
    ensures { result ≡ L n i k }
{
    let d = parts(n);
    cosine(cos, 3 * d * (2 * i + 1 + n / 6) * (2 * k + 1))
}
