// The draws of the generator, and the step that each gives.
ghost use Rattle.std.specs.Prelude.{◌≡◌, ◌%◌, ◌<◌, ◌≤◌};
ghost use Rattle.jobs.specs.Drawn.{step_of};
ghost use Rattle.jobs.specs.Draws as draws;

use crate::{Op, Step};

// The next state, which is the draw.
#[tactic(auto, unfolding(crate::specs::Draws::draw))]
pub fn draw(s: u64) -> u64
    ensures { result ≡ draws.draw s }
{
    let a = s ^ (s << 13);
    let b = a ^ (a >> 7);
    b ^ (b << 17)
}

fn below(d: u64, n: u64) -> u16
    requires { (0 < n) × (n ≤ 64) }
    ensures { result ≡ d % n }
{
    (d % n) as u16
}

// The step that a draw gives.
pub fn drawn_step(n: u64, d: u64) -> Step
    requires { (0 < n) × (n ≤ 64) }
    ensures { result ≡ step_of n d }
{
    let a = below(d / 8, n);
    match d % 3 {
        0 => Step {
            op: Op::Gate,
            a,
            b: 0,
            value: below(d / 32768, 24),
        },
        1 => {
            let b = below(d / 512, n);
            if a == b {
                Step {
                    op: Op::Gate,
                    a,
                    b: 0,
                    value: 8,
                }
            } else {
                Step {
                    op: Op::Cz,
                    a,
                    b,
                    value: 0,
                }
            }
        }
        _ => Step {
            op: Op::Measure,
            a,
            b: 0,
            value: 2 * below(d / 32768, 3) + below(d >> 40, 2),
        },
    }
}
