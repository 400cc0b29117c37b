use std::marker::Model;

/// How far a reader has read a queue, and how far all of it is done. What is done was read.
#[derive(Clone, Copy, Debug)]
pub struct Levels {
    /// How many entries were read, from the first one on.
    pub read: u64,
    /// How many entries are done, from the first one on; at most `read`.
    pub done: u64,
}

impl Model for Levels {
    ghost use Rattle.std.specs.Prelude.{◌≤◌};
    ghost use Rattle.ndc_queue.specs.Levels.{LevelPair};

    ghost Value = { LevelPair };

    ghost view = { λ levels. record { read = levels.read; done = levels.done } };

    ghost invariant = { λ levels. levels.done ≤ levels.read };

    ghost inverse = { λ levels. record { read = levels.read; done = levels.done } };
}

impl Levels {
    ghost use Rattle.std.specs.Prelude.{◌≡◌, ◌≤◌};
    ghost use Rattle.ndc_queue.specs.Levels.{advanced, new_levels, rewound};

    /// The levels before anything was read.
    pub fn new() -> Levels
        ensures { result ≡ new_levels }
    {
        Levels { read: 0, done: 0 }
    }

    /// Raises `done` to a level, and `read` where it would be below. The level is not below `done`. Takes no memory.
    pub fn advance(&mut self, done: u64)
        requires { self.old.done ≤ done }
        ensures { self.new ≡ advanced done self.old }
    {
        self.read = self.read.max(done);
        self.done = done;
    }

    /// What was read and is not done is to be read again. Takes no memory.
    pub fn rewind(&mut self)
        ensures { self.new ≡ rewound self.old }
    {
        self.read = self.done;
    }
}
