//! The draws of a workload.
ghost use Rattle.std.specs.Prelude.{◌≡◌, ◌<◌, ◌/◌};
ghost use Rattle.row_gen.specs.Draws as spec;

/// What the draws have come to.
#[derive(Drop)]
pub struct Draws {
    state: u32,
    ghost small: { state < 2147483648 },
}

impl Draws {
    /// No draw is taken yet.
    pub fn begin(number: u32) -> Draws
        requires { number < 2147483648 }
        ensures { result.state ≡ number }
    {
        Draws { state: number }
    }

    /// One draw.
    #[tactic(auto, unfolding(crate::specs::Draws::next_state))]
    pub fn draw(&mut self) -> u32
        ensures state { self.new.state ≡ spec.next_state self.old.state }
        ensures drawn { result ≡ self.new.state / 65536 }
    {
        let next = (u64::from(self.state) * 1_103_515_245 + 12_345) % 2_147_483_648;
        self.state = next as u32;
        self.state / 65_536
    }
}
