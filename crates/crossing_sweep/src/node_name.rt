//! Names of nodes by the numbers of these.
ghost use Rattle.std.specs.Prelude.{◌≡◌, ◌<◌, AllPairs};
ghost use Rattle.crossing_sweep.specs.NodeNames.{name_at, IsNamed};

use exact_point::PointName;

/// The name of a node that a row ends at, by the number of the node among all that a pass has come to.
#[derive(Clone, Copy, Debug)]
pub struct NodeName {
    pub number: usize,
    pub name: PointName,
}

/// The name under a number that is there, among names in the order of their numbers.
pub fn name_of(names: &[NodeName], number: usize) -> PointName
    requires ordered { AllPairs (λ a b. a.number < b.number) names.now }
    requires named { IsNamed names.now number }
    ensures { result ≡ name_at names.now number }
{
    // Where each node has its name here, it is found under its own number.
    if number < names.len() && names[number].number == number {
        return names[number].name;
    }
    let place = names.partition_point(|node| node.number < number);
    names[place].name
}
