ghost use Rattle.std.specs.Prelude.{◌≡◌};
ghost use Rattle.raid_generator.specs.Made.{next, drawn};

/// Numbers that look random and come from a seed alone.
#[derive(Clone, Copy, Debug, PartialEq, Eq)]
pub struct Draws {
    pub state: u32,
}

impl Draws {
    /// The next number, 0 to 65,535.
    pub fn draw(&mut self) -> u32
        ensures state { self.new.state ≡ next self.old.state }
        ensures drawn { result ≡ drawn (next self.old.state) }
    {
        self.state = ((u64::from(self.state) * 1664525 + 1013904223) % (1 << 32)) as u32;
        self.state / (1 << 16)
    }
}
