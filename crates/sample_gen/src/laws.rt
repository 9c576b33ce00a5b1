//! Laws of the definitions: public functions with no parameters, whose contracts are the laws.
ghost use Rattle.sample_gen.specs.SampleLaws.{SampleOfFour};

/// The changes of the sample of size 4.
pub fn sample_of_four()
    ensures { SampleOfFour }
{}
