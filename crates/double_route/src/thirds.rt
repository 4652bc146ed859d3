// The inputs of the three parts that a split makes, one body for every length.
// The leaves are in `split`.
ghost use Rattle.std.specs.Prelude.{◌≡◌, ◌/◌, ◌≤◌, length};
ghost use Rattle.split.specs.TurnLaws.{Beside};
ghost use Rattle.split.specs.PartLaws.{Third, Rooms};
ghost use Rattle.double_route.specs.PieceLaws.{Piece};
ghost use Rattle.double_route.specs.StepLaws.{Thirds};

use split::Turns;

// The inputs of one of the three, a - b + c, or rB, or rC with its sign, y having n inputs.
fn middle(n: usize, y: &[i32], w: &mut [i32])
    requires piece { Piece n y.now }
    requires w_len { length w.old ≡ n / 3 }
    ensures { Third 0 n y.now w.new }
{
    split::thirds::middle_third(n, y, w);
}

// The room is its own, so that the compiler knows it to lie apart from y.
fn outer(n: usize, which: usize, y: &[i32], p: &[i32], q: &[i32], w: &mut [i32])
    requires piece { Piece n y.now }
    requires beside { Beside which n p.now q.now }
    requires w_len { length w.old ≡ n / 3 }
    ensures { Third which n y.now w.new }
{
    let t = n / 3;
    let mut room = [0i32; 24];
    split::thirds::turned_third(n, which, y, p, q, &mut room[..t]);
    w.copy_from_slice(&room[..t]);
}

// The inputs of the three parts of y, T each.
#[inline(always)]
pub fn thirds_of<const N: usize, const T: usize>(
    turns: Turns<N, T>,
    y: &[i32],
    wa: &mut [i32],
    wb: &mut [i32],
    wg: &mut [i32],
)
    requires third { T ≡ N / 3 }
    requires piece { Piece N y.now }
    requires rooms { Rooms T wa.old wb.old wg.old }
    ensures { Thirds N y.now wa.new wb.new wg.new }
{
    middle(N, y, wa);
    outer(N, 1, y, &turns.cosines.eb, &turns.cosines.fb, wb);
    outer(N, 2, y, &turns.cosines.ec, &turns.cosines.fc, wg);
}

// The same by the length of y, whose thirds are split again.
pub fn thirds(y: &[i32], wa: &mut [i32], wb: &mut [i32], wg: &mut [i32])
    requires piece { Piece (length y.now) y.now }
    requires y_long { 36 ≤ length y.now }
    requires rooms { Rooms (length y.now / 3) wa.old wb.old wg.old }
    ensures { Thirds (length y.now) y.now wa.new wb.new wg.new }
{
    let n = y.len();
    // Which of the lengths: `if` and not `match`, whose last arm is told nothing of the numbers left out.
    if n == 72 {
        thirds_of::<72, 24>(split::turns_72(), y, wa, wb, wg);
        return;
    }
    if n == 36 {
        thirds_of::<36, 12>(split::turns_36(), y, wa, wb, wg);
    }
}
