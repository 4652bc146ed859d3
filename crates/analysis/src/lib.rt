// The routes, and one block of a length at which its route is offered, valid by its requires.
// No function here is a public call: `recording` and the public calls over blocks call `analyse_block`, after every check.
#![tactic(auto)]

ghost use Rattle.std.specs.Prelude.{◌≡◌, ◌/◌, T, length};
ghost use Rattle.analysis.specs.Analysis.{offered, coefficients};
ghost use Rattle.analysis.specs.Routes.{route_of};

use windows::Joints;

/// How a block is analysed. The short route is document 01's term for the one in thirds; the double route, document 02's third, splits the thirds again.
#[derive(Clone, Copy, Debug, PartialEq, Eq)]
pub enum Route {
    Direct,
    Short,
    Double,
}

/// A number that names no route.
#[derive(Clone, Copy, Debug, PartialEq, Eq)]
pub struct UnknownRoute(pub u32);

/// A route by its number, as C names it: 0 is direct, 1 short, 2 double.
impl TryFrom<u32> for Route {
    type Error = UnknownRoute;

    ghost try_from_gives = { λ number answer. answer ≡ route_of number };

    fn try_from(number: u32) -> Result<Self, UnknownRoute> {
        match number {
            0 => Ok(Route::Direct),
            1 => Ok(Route::Short),
            2 => Ok(Route::Double),
            _ => Err(UnknownRoute(number)),
        }
    }
}

// A valid block's coefficients, by a route, with joints of these shapes.
pub fn analyse_block(route: Route, n: usize, joints: Joints, x: &[i16], out: &mut [i32])
    requires { T (offered route n) × (length x.now ≡ n) × (length out.old ≡ n / 2) }
    ensures { out.new ≡ coefficients route n joints.left joints.right x.now }
{
    match route {
        Route::Direct => direct_bodies::analyse(n, joints, x, out),
        Route::Short => split_bodies::short::analyse(n, joints, x, out),
        Route::Double => split_bodies::double::analyse(n, joints, x, out),
    }
}
