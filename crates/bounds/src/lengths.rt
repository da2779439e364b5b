// Lengths by task number, each that of a window.
ghost use Rattle.std.specs.Prelude.{◌≡◌, ℕ, ◌<◌, ◌≤◌, slice_index};

use least::Window;

#[derive(Clone, Copy)]
pub(crate) struct Lengths {
    pub(crate) of: [u32; 64],
    ghost short: { (j : ℕ) → slice_index of j ≤ 10000000 },
}

impl Lengths {
    pub(crate) fn at(&self, number: usize) -> Window
        requires { number < 64 }
        ensures { result.length ≡ slice_index self.now.of number }
    {
        Window {
            length: self.of[number],
        }
    }
}
