// The window of a block by the shapes of its joints: one body for every length. A shape is a number, as in the definitions `rising` and `falling` and in every law of them: 0 is long, any other short.
#![tactic(auto)]

ghost use Rattle.std.specs.Prelude.{◌≡◌, ◌+◌};
ghost use Rattle.windows.specs.HalfLaws.{rise_list, fall_list};
ghost use Rattle.windows.specs.Windows.{IsWindow};

pub mod numbers;

/// The shapes of a block's joints: 0 is long, 1 short (document 02, P7). Numbers and no enum, since a caller may say any: above 1 is refused with Shape (8).
#[derive(Clone, Copy, Debug, PartialEq, Eq)]
pub struct Joints {
    pub left: u32,
    pub right: u32,
}

/// The joints of a block between two long ones.
pub const LONG: Joints = Joints { left: 0, right: 0 };

// The halves of the joints of a block of 2 M: those of a long joint, and those of a short one.
pub struct Halves<const M: usize> {
    pub rise: [i32; M],
    pub short_rise: [i32; M],
    pub fall: [i32; M],
    pub short_fall: [i32; M],
}

// The window of a block of 2 M: halves that are the definition's.
#[derive(Clone, Copy)]
pub struct Window<const M: usize> {
    pub halves: &'static Halves<M>,
    pub ghost is_window: { IsWindow M halves.now.rise halves.now.short_rise halves.now.fall halves.now.short_fall },
}

impl<const M: usize> Window<M> {
    // The rising half of a joint of this shape.
    #[inline(always)]
    pub fn rising(self, shape: u32) -> &'static [i32; M]
        ensures { result.now ≡ rise_list shape (M + M) }
    {
        if shape == 0 {
            &self.halves.rise
        } else {
            &self.halves.short_rise
        }
    }

    // Its falling half.
    #[inline(always)]
    pub fn falling(self, shape: u32) -> &'static [i32; M]
        ensures { result.now ≡ fall_list shape (M + M) }
    {
        if shape == 0 {
            &self.halves.fall
        } else {
            &self.halves.short_fall
        }
    }
}

// The window of each length: a function for each, since no const parameter can choose a static.
pub fn window_12() -> Window<6> {
    Window {
        halves: &numbers::HALVES_12,
    }
}

pub fn window_24() -> Window<12> {
    Window {
        halves: &numbers::HALVES_24,
    }
}

pub fn window_36() -> Window<18> {
    Window {
        halves: &numbers::HALVES_36,
    }
}

pub fn window_72() -> Window<36> {
    Window {
        halves: &numbers::HALVES_72,
    }
}

pub fn window_108() -> Window<54> {
    Window {
        halves: &numbers::HALVES_108,
    }
}

pub fn window_216() -> Window<108> {
    Window {
        halves: &numbers::HALVES_216,
    }
}
