//! Where the numbers of each kind of task begin.
ghost use Rattle.std.specs.Prelude.{◌≡◌, ◌+◌, ◌<◌, ◌≤◌, ◌^◌};
ghost use Rattle.sph_num.specs.Ranges.{most_particles};

/// The first number of each kind but the drifts, which begin with 0.
#[derive(Clone, Copy, Debug, PartialEq, Eq)]
pub struct Numbers {
    pub densities: u32,
    pub ghosts: u32,
    pub forces: u32,
    pub kicks: u32,
}

impl Numbers {
    /// The numbers for so many leaves that drift, spans, and leaves with a due member.
    pub fn of(drifting: usize, spans: usize, dues: usize) -> Numbers
        requires drifting { drifting ≤ most_particles }
        requires spans { spans < 2 ^ 30 }
        requires dues { dues ≤ most_particles }
        ensures densities { result.densities ≡ drifting }
        ensures ghosts { result.ghosts ≡ drifting + spans }
        ensures forces { result.forces ≡ drifting + spans + dues }
        ensures kicks { result.kicks ≡ drifting + spans + dues + spans }
    {
        let (drifting, spans, dues) = (drifting as u32, spans as u32, dues as u32);
        let forces = drifting + spans + dues;
        Numbers {
            densities: drifting,
            ghosts: drifting + spans,
            forces,
            kicks: forces + spans,
        }
    }
}
