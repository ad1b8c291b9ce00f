//! A law of stimuli, the contract of a function that does nothing.
ghost use Rattle.stim_text.specs.OneStimulus.{StimuliHaveOneAnswer};

/// A text is read as rows in one way, and its rows, a first line that is no row, and too many rows exclude each other.
pub fn stimuli_have_one_answer()
    ensures { StimuliHaveOneAnswer }
{}
