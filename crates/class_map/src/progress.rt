// How far a map is read.
ghost use Rattle.std.specs.Prelude.{◌≡◌, ◌≤◌, ◌+◌, None, Some};
ghost use Rattle.class_map.specs.Bounds.{IsBounded, IsFurther};
ghost use Rattle.class_map.specs.Faults.{behind, start};

use crate::map_line::MapLine;

/// How far a map is read without a fault: how many lines were read, the last of them that speaks of a bit, and how many pairs of a bit and
/// a cycle they speak of.
#[derive(Clone, Copy)]
pub(crate) struct Progress {
    pub seen: u64,
    pub before: Option<MapLine>,
    pub pairs: u64,
}

impl Progress {
    /// Nothing is read.
    pub fn start() -> Progress
        ensures is { result ≡ start }
        ensures bounded { IsBounded result }
    {
        Progress {
            seen: 0,
            before: None,
            pairs: 0,
        }
    }

    /// One of the first three lines is read.
    pub fn pass_head(&mut self)
        requires bounded { IsBounded self.old }
        requires head { self.old.seen ≤ 2 }
        ensures is { self.new ≡ behind self.old None }
        ensures bounded { IsBounded self.new }
    {
        self.seen += 1;
    }

    /// One of the other lines is read.
    pub fn pass_line(&mut self, line: &MapLine)
        requires bounded { IsBounded self.old }
        requires further { IsFurther self.old.before line.now }
        ensures is { self.new ≡ behind self.old (Some line.now) }
        ensures bounded { IsBounded self.new }
    {
        self.seen += 1;
        self.before = Some(*line);
        self.pairs += u64::from(line.to - line.from);
    }
}
