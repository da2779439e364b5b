// The marks of the cores. A core is standing when its present ranks were found to pass a test and
// nothing has changed since that the test looks at; else it is loose.
ghost use Rattle.sheet.specs.Marks.{loosened, narrowed, standing, stands};
ghost use Rattle.std.specs.Prelude.{◌≡◌};

#[derive(Clone, Copy, PartialEq, Eq, Debug)]
pub enum Mark {
    Loose,
    // Standing by a test that looks at no other core.
    OwnCore,
    // Standing by a test that looks at every core.
    Wide,
}

impl Mark {
    pub fn is_standing(self) -> bool
        ensures answer { result ≡ stands self }
    {
        matches!(self, Mark::OwnCore | Mark::Wide)
    }

    // The mark by a test that is wide or not.
    pub(crate) fn standing(wide: bool) -> Mark
        ensures { result ≡ standing wide }
    {
        if wide { Mark::Wide } else { Mark::OwnCore }
    }

    // What a change on another core leaves of it.
    fn narrowed(self) -> Mark
        ensures { result ≡ narrowed self }
    {
        match self {
            Mark::Wide => Mark::Loose,
            _ => self,
        }
    }
}

// After a change on a core: it is loose, and so is every core that stands by a wide test.
pub(crate) fn loosen(marks: &mut [Mark; 8], core: u8)
    ensures { marks.new ≡ loosened marks.old core }
{
    for mark in marks.iter_mut() {
        *mark = mark.narrowed();
    }
    let own = core as usize;
    if own < marks.len() {
        marks[own] = Mark::Loose;
    }
}
