//! Laws of integers, of sets and of the text of a value, each the contract of a function that does nothing.

ghost use Rattle.pascal_values.specs.Integers.{IsRemainder};
ghost use Rattle.pascal_values.specs.Operations.{GiveSets};
ghost use Rattle.pascal_values.specs.Reading.{HasOneReading, IsReadAgain};
ghost use Rattle.pascal_values.specs.Sets.{ChoosesMembers, IsToldByMembers};

/// The remainder lies where ISO 7185 says.
pub fn remainder_law()
    ensures { IsRemainder }
{}

/// The operations on sets, which are defined by a test of the members, have exactly those members.
pub fn chosen_members()
    ensures { ChoosesMembers }
{}

/// Each operation that makes a set gives a rising list of ordinals, whatever it is given.
pub fn sets_are_given()
    ensures { GiveSets }
{}

/// Two sets with the same members are equal.
pub fn told_by_members()
    ensures { IsToldByMembers }
{}

/// No text has two readings.
pub fn one_reading()
    ensures { HasOneReading }
{}

/// What is written is read again as the same value.
pub fn read_again()
    ensures { IsReadAgain }
{}
