//! Laws of the parts of instances: their contracts are the laws, and they do nothing.

ghost use Rattle.situation_images.specs.Instances.{PartsLieBelow, PartsAreOfInstances};

/// What a tree of parts has at and below an instance are the parts of the instances there, in path order.
pub fn parts_are_of_instances()
    ensures paths { PartsLieBelow }
    ensures parts { PartsAreOfInstances }
{}
