// Amplitudes for plotting: the answer, and a line of the plot. See specs/ for the definitions and proofs/ for the laws.
#![tactic(auto)]

// "the answer is nothing, .. or a value on the real axis, or a value on the imaginary axis"
#[derive(Clone, Copy)]
pub enum Amplitude {
    Nothing,
    Real(f64),
    Imag(f64),
}

// "Each plot line holds three floats, real part, imaginary part and probability"
#[derive(Clone, Copy)]
pub struct PlotLine {
    pub re: f64,
    pub im: f64,
    pub p: f64,
}
