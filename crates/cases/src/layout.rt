// How the cases of a file stand in it, one behind the other: up to two numbers, and then a part.
ghost use Rattle.std.specs.Prelude.{◌≤◌};
ghost use Rattle.totals.specs.Sum.{capped};

use crate::cursor::{EDITION_BYTES, LENGTH_BYTES, Number};
use crate::{cursor, file};

// How many bytes each number takes, 0 where there is none, and how many the part has; where that is not the same in every case, its length stands in front of it.
#[derive(Clone, Copy)]
pub struct Layout {
    pub widths: [u64; 2],
    pub size: Option<u64>,
}

// A part behind its length.
pub const PART: Layout = Layout {
    widths: [0, 0],
    size: None,
};

// The same behind an edition.
pub const EDITION_AND_PART: Layout = Layout {
    widths: [EDITION_BYTES, 0],
    size: None,
};

// The same behind an edition and the size of an output.
pub const OUTPUT_OF_FILE: Layout = Layout {
    widths: [EDITION_BYTES, LENGTH_BYTES],
    size: None,
};

// The numbers of a case, and where its part is.
#[derive(Clone, Copy)]
struct Case {
    numbers: [u64; 2],
    part: Number,
}

impl Layout {
    // The part that begins at a place, or whose length does. One that would have no byte has one, so that each case takes some.
    fn part_at(self, cases: &[u8], at: usize) -> Number
        ensures { capped at 1 ≤ capped result.behind result.value }
    {
        match self.size {
            Some(size) => Number {
                value: size.max(1),
                behind: at,
            },
            None => cursor::number_at(cases, at, LENGTH_BYTES),
        }
    }

    // The case at a place.
    fn case_at(self, cases: &[u8], at: usize) -> Case
        ensures { capped at 1 ≤ capped result.part.behind result.part.value }
    {
        let first = cursor::number_at(cases, at, self.widths[0]);
        let second = cursor::number_at(cases, first.behind, self.widths[1]);
        Case {
            numbers: [first.value, second.value],
            part: self.part_at(cases, second.behind),
        }
    }

    // Prints what is to be printed of each case. The cases stand one behind the other, each as long as its own front says: no iterator of the library goes so.
    pub fn print_cases<F: Fn([u64; 2], &[u8])>(self, cases: &[u8], print: F)
        requires { F.IsAlwaysCallable print }
    {
        let mut at = 0;
        while at < cases.len() {
            let case = self.case_at(cases, at);
            let numbers = case.numbers;
            print(numbers, case.part.part(cases));
            at = case.part.behind_part();
        }
        cursor::print_end(cases, at);
    }

    // The same of the cases in a file of this name.
    pub fn print_file<F: Fn([u64; 2], &[u8])>(self, rt: &HostRuntime, path: &[u8], print: F)
        requires { F.IsAlwaysCallable print }
    {
        let mut buffer = file::room();
        let size = file::load(rt, path, &mut buffer);
        self.print_cases(&buffer[..size], print);
    }
}
