// Lines of a plot: a power of i as an answer, 2 ^ -r as a float, and the line of an answer.
ghost use Rattle.std.specs.Prelude.{◌≡◌, ◌<◌, ◌≤◌};
ghost use Rattle.amplitude.specs.Plotting.{halves, plotted, turned};

use amplitude::{Amplitude, PlotLine};

pub fn turned(k: u8) -> Amplitude
    requires { k < 4 }
    ensures { result ≡ turned k }
{
    match k {
        0 => Amplitude::Real(1.0),
        1 => Amplitude::Imag(1.0),
        2 => Amplitude::Real(-1.0),
        _ => Amplitude::Imag(-1.0),
    }
}

pub fn halves(r: u64) -> f64
    requires { r ≤ 64 }
    ensures { result ≡ halves r }
{
    f64::from_bits((1023 - r) << 52)
}

pub fn plot_line(a: Amplitude, r: u64) -> PlotLine
    requires { r ≤ 64 }
    ensures { result ≡ plotted a r }
{
    match a {
        Amplitude::Nothing => PlotLine {
            re: 0.0,
            im: 0.0,
            p: 0.0,
        },
        Amplitude::Real(v) => PlotLine {
            re: v,
            im: 0.0,
            p: halves(r),
        },
        Amplitude::Imag(v) => PlotLine {
            re: 0.0,
            im: v,
            p: halves(r),
        },
    }
}
