// The files of cases that a test program runs.
ghost use Rattle.io.specs.Counts.{IsPrefixLen};

use crate::layout::Layout;
use crate::{file, print};

// The ways in which a library is given a file, as titles tell them.
pub const WHOLE: &[u8] = b"";

pub const IN_CHUNKS: &[u8] = b", in chunks";

pub const CUT_AT_EVERY_PLACE: &[u8] = b", cut at every place";

// Where cases come from.
#[derive(Clone, Copy)]
pub enum Source {
    Outside,
    Own,
}

impl Source {
    fn print_name(self) {
        match self {
            Source::Outside => print::text(b"outside"),
            Source::Own => print::text(b"own"),
        }
    }

    // Prints the line above the answers of its cases: its name, and the way in which they are run.
    pub fn print_title(self, way: &[u8]) {
        self.print_name();
        print::text(way);
        print::byte(b'\n');
    }

    // Reads its file of cases.
    pub fn load(self, rt: &HostRuntime, buffer: &mut [u8]) -> usize
        ensures { IsPrefixLen result buffer.new }
    {
        match self {
            Source::Outside => file::load(rt, b"outside.cases", buffer),
            Source::Own => file::load(rt, b"own.cases", buffer),
        }
    }

    // Prints its title, and what is to be printed of each of its cases.
    pub fn print_cases<F: Fn([u64; 2], &[u8])>(
        self,
        rt: &HostRuntime,
        way: &[u8],
        layout: Layout,
        print: F,
    )
        requires { F.IsAlwaysCallable print }
    {
        let mut buffer = file::room();
        self.print_title(way);
        let size = self.load(rt, &mut buffer);
        layout.print_cases(&buffer[..size], print);
    }
}
