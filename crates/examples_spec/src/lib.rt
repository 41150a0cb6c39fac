// The worked examples T1 to T10 of document 01 as one statement about the definitions that the contracts cite, with the
// extended grid of one border, the rule on the order of axes and the rule on convolutions.
#![tactic(auto)]

ghost use Rattle.std.specs.Prelude.{ℤ};
ghost use Rattle.border.specs.Axes.{OneBorder};
ghost use Rattle.min_max_spec.specs.Order.{OrderOfAxes};
ghost use Rattle.correlate_judge_spec.specs.Convolution.{ConvolutionIsCorrelation};
ghost use Rattle.examples_spec.specs.Examples.{WorkedExamples};

// T1 to T10 hold of the definitions, and so do document 01's words on the extended grid, the rule on the order of axes
// and the rule that a convolution is a correlation.
pub fn worked_examples()
    ensures { WorkedExamples × OneBorder ℤ × OrderOfAxes × ConvolutionIsCorrelation }
{
    border::one_border();
    min_max_spec::order_of_axes();
    correlate_judge_spec::convolution_is_correlation();
}
