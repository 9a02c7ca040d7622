//! Laws of the texts that are generated from a number, each the contract of a function that does nothing.
#![tactic(auto)]

ghost use Rattle.ep_gen_laws.specs.Instances.{EachNumberGivesInstance};

/// The two texts of any number are never refused: both are read, neither has a fault, they are bound together, and their instance is
/// within the limits of size, of reach and of weight.
pub fn each_number_gives_an_instance()
    ensures { EachNumberGivesInstance }
{}
