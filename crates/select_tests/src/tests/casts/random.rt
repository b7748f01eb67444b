// Numbers that look random, the same in each run.

ghost use Rattle.std.specs.Prelude.{◌<◌};

#[derive(Drop)]
pub(crate) struct Random {
    state: u64,
}

impl Random {
    pub(crate) fn new(state: u64) -> Random {
        Random { state }
    }

    // A number below another one.
    pub(crate) fn below(&mut self, many: u64) -> u64
        requires { 0 < many }
        ensures { result < many }
    {
        self.state = self
            .state
            .wrapping_mul(6_364_136_223_846_793_005)
            .wrapping_add(1_442_695_040_888_963_407);
        (self.state >> 33) % many
    }
}
