// Whether the words are a tween within its limits, asked of the patterns: those of floats from 0 up are
// in the floats' order. false where that does not tell: of -0, of a flag above 1, and of the kinds
// of which `holds` does not.
ghost use Rattle.std.specs.Prelude.{◌≡◌};
ghost use Rattle.tween_words.specs.Fitting.{value_word, settings_fit, clock_fit, fits_of};

use easing_words::holds;

// At most 16,777,216 in size.
fn is_value(word: u32) -> bool
    ensures { result ≡ value_word word }
{
    word % 0x8000_0000 <= 0x4b80_0000
}

fn settings_fit(w: &[u32; 18]) -> bool
    ensures { result ≡ settings_fit w.now }
{
    holds(w[3], w[4], w[5], w[6], w[7])
        & is_value(w[0])
        & is_value(w[1])
        & (w[2] <= 0x4b80_0000)
        & (w[9] <= 0x4b80_0000)
        & (w[10] <= 0x4480_0000)
}

// Tests one by one: two words compared as one wait for both where either was just written.
fn clock_fits(w: &[u32; 18]) -> bool
    ensures { result ≡ clock_fit w.now }
{
    if w[11] > 4 {
        return false;
    }
    if w[12] > 65535 {
        return false;
    }
    if w[13] > w[2] {
        return false;
    }
    if w[14] > 0x4c00_0000 {
        return false;
    }
    if w[16] > 16777216 {
        return false;
    }
    if w[17] > 1 {
        return false;
    }
    if w[15] > 3 {
        return false;
    }
    (0 < w[15]) | (w[14] < w[9])
}

pub fn fits(w: &[u32; 18]) -> bool
    ensures { result ≡ fits_of w.now }
{
    settings_fit(w) & clock_fits(w)
}
