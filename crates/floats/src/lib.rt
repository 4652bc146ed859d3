// Coefficients for the plotting desk (document 02, P14): X / 64 as a 64-bit float, and the highest and the lowest coefficient of a block.
// No function here is a public call: the calls on floats call them, after every check.
#![tactic(auto)]

ghost use Rattle.std.specs.Prelude.{◌≡◌, ◌<◌, length};
ghost use Rattle.floats.specs.Floats.{sixty_fourth, floats_of, larger, smaller, highest_of, lowest_of};

// X / 64, exactly.
#[tactic(auto, using(crate::specs::FloatLaws::divided))]
pub fn sixty_fourth(x: i32) -> f64
    ensures { result ≡ sixty_fourth x }
{
    x as f64 / 64.0
}

// That of each coefficient.
pub fn fill(x: &[i32], out: &mut [f64])
    requires { length out.old ≡ length x.now }
    ensures { out.new ≡ floats_of x.now }
{
    for (k, float) in out.iter_mut().enumerate() {
        *float = sixty_fourth(x[k]);
    }
}

// Whole numbers are compared, and no floats.
pub fn highest(x: &[i32]) -> i32
    requires { 0 < length x.now }
    ensures { result ≡ highest_of x.now }
{
    let mut best = x[0];
    for &value in x {
        best = best.max(value);
    }
    best
}

pub fn lowest(x: &[i32]) -> i32
    requires { 0 < length x.now }
    ensures { result ≡ lowest_of x.now }
{
    let mut best = x[0];
    for &value in x {
        best = best.min(value);
    }
    best
}
