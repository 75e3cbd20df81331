// The markers of one colour on a cell.
ghost use Rattle.std.specs.Prelude.{◌≡◌, ◌<◌};
ghost use Rattle.cell_world.specs.Marks.{no_marks, has_mark, with_mark, without_mark, has_any_mark};

/// A set of markers, numbered from 0 to 5: those of one colour on one cell (the task's chemistry).
#[derive(Clone, Copy, Debug, Default, PartialEq, Eq)]
pub struct Marks {
    // Bit i is marker i; the two highest bits are never set.
    set: u8,
}

impl Marks {
    /// The empty set (the task's chemistry).
    #[inline]
    pub fn none() -> Marks
        ensures { result ≡ no_marks }
    {
        Marks { set: 0 }
    }

    /// Whether marker `i`, which is from 0 to 5, is in the set (the task's chemistry).
    #[inline]
    pub fn has(&self, i: u8) -> bool
        requires { i < 6 }
        ensures { result ≡ has_mark self.now i }
    {
        self.set >> i & 1 == 1
    }

    /// The same set with marker `i`, which is from 0 to 5; the other markers are unchanged (the task's chemistry).
    #[inline]
    pub fn with(self, i: u8) -> Marks
        requires { i < 6 }
        ensures { result ≡ with_mark self i }
    {
        Marks {
            set: self.set | 1 << i,
        }
    }

    /// The same set without marker `i`, which is from 0 to 5; the other markers are unchanged (the task's chemistry).
    #[inline]
    pub fn without(self, i: u8) -> Marks
        requires { i < 6 }
        ensures { result ≡ without_mark self i }
    {
        Marks {
            set: self.set & !(1 << i),
        }
    }

    /// Whether any of the six markers is in the set (the task's chemistry).
    #[inline]
    pub fn any(&self) -> bool
        ensures { result ≡ has_any_mark self.now }
    {
        self.set & 63 != 0
    }
}
