//! The numbers of a sample, from a linear congruential generator.

ghost use Rattle.std.specs.Prelude.{◌≡◌, ◌<◌};
ghost use Rattle.ftl_boxes.specs.Numbers.{next_state, drawn};

const MODULUS: u64 = 2_147_483_648;

/// The state of the generator.
#[derive(Clone, Copy)]
pub(crate) struct Numbers {
    pub(crate) state: u32,
}

impl Numbers {
    /// A number below the bound. The state moves first.
    pub(crate) fn draw(&mut self, bound: u32) -> u32
        requires some { 0 < bound }
        ensures drawn { result ≡ drawn bound self.new.state }
        ensures moved { self.new.state ≡ next_state self.old.state }
        ensures below { result < bound }
    {
        let next = (1_103_515_245 * u64::from(self.state) + 12_345) % MODULUS;
        self.state = next as u32;
        self.state / 65_536 % bound
    }
}
