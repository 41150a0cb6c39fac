// What correlations and convolutions refuse, as definitions, along an axis and with grid kernels; and that a
// convolution is a correlation with the reversed weights.
#![tactic(auto)]

ghost use Rattle.correlate_judge_spec.specs.Convolution.{ConvolutionIsCorrelation};
ghost use Rattle.correlate_judge_spec.specs.Rows.{CorrelateJudgeSpecRows};

// Every convolution, whole or float along an axis or with a grid kernel, gets the number of the correlation with the
// reversed weights and the origin negated and, for an even count, 1 less; accepted, it gives that one's levels.
pub fn convolution_is_correlation()
    ensures { ConvolutionIsCorrelation }
{}

// Worked rows of this crate's definitions: weights along an axis, grid kernels.
pub fn rows()
    ensures { CorrelateJudgeSpecRows }
{}
