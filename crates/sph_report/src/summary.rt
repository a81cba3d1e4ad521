//! The line of a run's summary at a tick.
ghost use Rattle.std.specs.Prelude.{◌≡◌, ◌≤◌, ◌<◌, All, IfOk, length};
ghost use Rattle.sph_num.specs.Motion.{IsMomentum};
ghost use Rattle.sph_num.specs.Ranges.{most_particles};
ghost use Rattle.sph_num.specs.declared.particle.Particle.{Particle};
ghost use Rattle.sph_report.specs.SummaryLine.{summary_line, total_density, total_momentum};

use sph_num::Particle;
use std::alloc::{AllocError, Global};

/// The line for the particles after the step at tick `t`, with its end: the sum of their densities, and on
/// each axis that of their momenta.
pub fn summary_line(alloc: Global, t: u32, particles: &[Particle]) -> Result<Vec<u8>, AllocError>
    requires few { length particles.now ≤ most_particles }
    requires momenta { All (λ (p : Particle). IsMomentum p.q) particles.now }
    ensures { IfOk result (λ text. text.items ≡ summary_line t particles.now) }
{
    let rho = total_density(particles);
    let qx = total_momentum(0, particles);
    let qy = total_momentum(1, particles);
    let qz = total_momentum(2, particles);
    let line = format!(in alloc; "tick {t} rho {rho} qx {qx} qy {qy} qz {qz}\n")?;
    Ok(line.into_bytes())
}

/// The sum of the densities.
fn total_density(particles: &[Particle]) -> u128
    requires { length particles.now ≤ most_particles }
    ensures { result ≡ total_density particles.now }
{
    let mut total = 0;
    for particle in particles {
        total += u128::from(particle.rho);
    }
    total
}

/// The sum of the momenta on an axis: x is 0, y is 1, z is 2.
fn total_momentum(axis: usize, particles: &[Particle]) -> i128
    requires axis { axis < 3 }
    requires few { length particles.now ≤ most_particles }
    requires momenta { All (λ (p : Particle). IsMomentum p.q) particles.now }
    ensures { result ≡ total_momentum axis particles.now }
{
    let mut total = 0;
    for particle in particles {
        total += particle.q[axis];
    }
    total
}

#[cfg(test)]
mod tests {
    use super::*;

    const AT_REST: Particle = Particle {
        mass: 1,
        h: 1024,
        x0: [0; 3],
        t0: 0,
        p: [0; 3],
        q: [0; 3],
        f: [0; 3],
        rho: 0,
        g: 0,
        bin: 0,
    };

    /// The line of these particles at tick 4; their momenta are narrow.
    fn has_line(alloc: Global, particles: &[Particle], line: &[u8]) -> Result<bool, AllocError>
        requires few { length particles.now ≤ most_particles }
        requires momenta { All (λ (p : Particle). IsMomentum p.q) particles.now }
    {
        let text = summary_line(alloc, 4, particles)?;
        Ok(text.as_slice() == line)
    }

    #[test]
    fn adds_the_particles(rt: HostRuntime) -> Result<(), AllocError> {
        let first = Particle {
            q: [5, -7, 0],
            rho: 20,
            ..AT_REST
        };
        let second = Particle {
            q: [-5, -4, 79_228_162_514_264_337_593_543_950_335],
            rho: 18_446_744_073_709_551_615,
            ..AT_REST
        };
        assert!(rt;
            has_line(
                rt.alloc(),
                &[first, second],
                b"tick 4 rho 18446744073709551635 qx 0 qy -11 qz 79228162514264337593543950335\n"
            )?
        );
        Ok(())
    }
}
